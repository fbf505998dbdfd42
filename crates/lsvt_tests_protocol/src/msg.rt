use lsv_msg::{ClientMessage, ServerMessage};

#[test]
fn a_message_that_travels_by_value_is_small(rt: HostRuntime) {
    assert!(rt; std::mem::size_of::<ClientMessage>() <= 64);
    assert!(rt; std::mem::size_of::<ServerMessage>() <= 64);
}
