//! Frames of the stream and fields of the protobuf encoding, read in place and written.
#![tactic(auto)]

mod field;
mod framer;
mod framing;
mod laws;
mod writer;

pub use field::{
    Field, FieldValue, LAST_FIELD_NUMBER, WireFault, keyed_bytes, keyed_number, read_field,
    varint_at,
};
pub use framer::Framer;
pub use framing::{FRAME_LIMIT, FrameFault, first_message, frame, lacking};
pub use laws::{
    a_stream_is_read_from_the_front, no_frame_begins_another, one_text_has_one_cutting,
    one_text_has_one_list_of_fields, what_is_written_is_read_back,
};
pub use writer::{put_bytes, put_number, put_varint, write_varint};
