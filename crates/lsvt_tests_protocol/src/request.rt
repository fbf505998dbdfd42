use lsv_base::{Bytes, List, NoMem, TimeSpec};
use lsv_info::{Entry, Exit, Head, Info, Value};
use lsv_record::{Record, Stream};
use lsv_request::*;
use std::alloc::Global;
use std::test::Fail;

const KEYS: [&[u8]; 4] = [b"command", b"runuser", b"submituser", b"submithost"];

fn info(alloc: Global, keys: &[&[u8]]) -> Result<Info, NoMem> {
    let mut entries = Vec::new(alloc);
    for key in keys {
        entries.push(Entry {
            key: Bytes::of(alloc, key)?,
            value: Value::Text(Bytes::of(alloc, b"x")?),
        })?;
    }
    Ok(Info {
        entries: List::from_vec(entries),
    })
}

#[test]
fn what_is_stored_is_asked_for_again(rt: HostRuntime) -> Result<(), Fail> {
    let alloc = rt.alloc();
    let record = Record::Io {
        delay: 1_500_000_000,
        stream: Stream::Stdin,
        bytes: Bytes::of(alloc, b"ab")?,
    };
    let Ok(
        Request::Record(
            Record::Io {
                delay,
                stream,
                bytes,
            },
        ),
    ) = request_of(record_message(record))
    else {
        return Err("a record is asked for".into());
    };
    assert_eq!(rt; (delay, stream), (1_500_000_000, Stream::Stdin));
    assert_eq!(rt; bytes.as_slice(), b"ab".as_slice());
    let head = Head {
        submit: TimeSpec { sec: 1, nsec: 0 },
        info: info(alloc, &KEYS)?,
    };
    let Ok(Request::Accept(accept)) = request_of(head_message(alloc, head)?) else {
        return Err("an accept is asked for".into());
    };
    assert!(rt; accept.expect_iobufs && has_keys(&accept.head.info));
    let ended = Exit {
        run: TimeSpec { sec: 1, nsec: 0 },
        value: -1,
        dumped: true,
        signal: Bytes::of(alloc, b"KILL")?,
        error: Bytes::new(alloc),
    };
    let Ok(Request::Exit(again)) = request_of(exit_message(alloc, ended)?) else {
        return Err("an exit is asked for".into());
    };
    assert_eq!(rt; (again.run.sec, again.value, again.dumped), (1, -1, true));
    Ok(())
}

#[test]
fn refusals_have_numbers_and_texts(rt: HostRuntime) {
    let rows = [
        (Refusal::UnexpectedMessage, 1, "unexpected message"),
        (Refusal::MalformedMessage, 2, "malformed message"),
        (Refusal::MessageTooLarge, 3, "message too large"),
        (Refusal::MissingKey, 4, "missing key"),
        (Refusal::BadTime, 5, "bad time"),
        (Refusal::BadSizeOrSignal, 6, "bad size or signal"),
        (Refusal::LogInUse, 7, "log in use"),
        (Refusal::NoSuchLog, 8, "no such log"),
        (Refusal::LogComplete, 9, "log complete"),
        (Refusal::NoSuchResumePoint, 10, "no such resume point"),
        (Refusal::LogDamaged, 11, "log damaged"),
        (Refusal::DeviceFault, 12, "device fault"),
        (Refusal::NumbersSpent, 13, "numbers spent"),
        (Refusal::LogFull, 14, "log full"),
        (Refusal::OutOfMemory, 15, "out of memory"),
    ];
    for (refusal, number, text) in rows {
        assert_eq!(rt; (refusal.number(), refusal.text()), (number, text));
    }
}
