use lsv_base::{Bytes, List, NoMem, TimeSpec};
use lsv_info::*;
use std::alloc::Global;
use std::test::Fail;

fn texts(alloc: Global, texts: &[&[u8]]) -> Result<List<Bytes>, NoMem> {
    let mut list = Vec::new(alloc);
    for text in texts {
        list.push(Bytes::of(alloc, text)?)?;
    }
    Ok(List::from_vec(list))
}

fn text(alloc: Global, text: &[u8]) -> Result<Value, NoMem> {
    Ok(Value::Text(Bytes::of(alloc, text)?))
}

#[test]
fn the_last_entry_of_a_key_counts(rt: HostRuntime) -> Result<(), Fail> {
    let alloc = rt.alloc();
    let rows = [
        (b"user", text(alloc, b"anna")?),
        (b"host", text(alloc, b"web1")?),
        (b"user", text(alloc, b"bert")?),
        (b"host", Value::Num(7)),
    ];
    let mut entries = Vec::new(alloc);
    for (key, value) in rows {
        let key = Bytes::of(alloc, key)?;
        entries.push(Entry { key, value })?;
    }
    let info = Info {
        entries: List::from_vec(entries),
    };
    assert_eq!(rt; info.text_of(b"user"), Some(&b"bert"[..]));
    // The last entry of this key is no text, and an entry before it doesn't count.
    assert_eq!(rt; info.text_of(b"host"), None);
    assert_eq!(rt; info.text_of(b"shell"), None);
    assert!(rt; matches!(info.value_of(b"host"), Some(Value::Num(7))));
    assert!(rt; info.value_of(b"shell").is_none());
    Ok(())
}

fn one_entry(alloc: Global, key: &[u8], value: Value) -> Result<Info, NoMem> {
    let mut entries = Vec::new(alloc);
    let key = Bytes::of(alloc, key)?;
    entries.push(Entry { key, value })?;
    Ok(Info {
        entries: List::from_vec(entries),
    })
}

fn line_of_info(alloc: Global, info: &Info) -> Result<Bytes, NoMem> {
    what_is_shown_has_no_float();
    json_line(alloc, &info_json(alloc, info)?)
}

fn line_of_time(alloc: Global, time: TimeSpec) -> Result<Bytes, NoMem> {
    what_is_shown_has_no_float();
    json_line(alloc, &time_json(alloc, time)?)
}

#[test]
fn parts_are_json_of_their_own(rt: HostRuntime) -> Result<(), Fail> {
    let alloc = rt.alloc();
    let argv = Value::Texts(texts(alloc, &[b"id", b"\xff"])?);
    let line = line_of_info(alloc, &one_entry(alloc, b"argv", argv)?)?;
    assert_eq!(rt;
        line.as_slice(),
        "{\"argv\":[\"id\",\"\u{fffd}\"]}\n".as_bytes()
    );
    let line = line_of_time(alloc, TimeSpec { sec: 1, nsec: 2 })?;
    assert_eq!(rt;
        line.as_slice(),
        "{\"nanoseconds\":2,\"seconds\":1}\n".as_bytes()
    );
    Ok(())
}
