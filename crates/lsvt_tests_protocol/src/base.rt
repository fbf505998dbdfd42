use lsv_base::*;
use std::test::Fail;

fn seconds_now<C: Clock>(clock: &mut C) -> i64 {
    clock.now().sec
}

#[test]
fn bytes_and_lists_grow_at_their_end(rt: HostRuntime) -> Result<(), Fail> {
    let mut bytes = Bytes::of(rt.alloc(), b"ab")?;
    bytes.add(b"c")?;
    assert_eq!(rt; bytes.as_slice(), &b"abc"[..]);
    let mut copy = bytes.copy(rt.alloc())?;
    copy.add(b"d")?;
    assert_eq!(rt; bytes.as_slice(), &b"abc"[..]);
    copy.drop_front(1);
    assert_eq!(rt; copy.as_slice(), &b"bcd"[..]);
    copy.fill_front(2, b'*');
    assert_eq!(rt; copy.as_slice(), &b"**d"[..]);
    copy.add(&[b'x'; 40])?;
    copy.drop_front(2);
    copy.fill_front(2, b'*');
    assert_eq!(rt; copy.as_slice().len(), 41);
    assert_eq!(rt; &copy.as_slice()[..3], &b"**x"[..]);
    assert!(rt; Bytes::new(rt.alloc()).as_slice().is_empty());

    let mut list = List::new(rt.alloc());
    assert!(rt; list.push(3u8).is_ok());
    assert!(rt; list.push(4u8).is_ok());
    assert_eq!(rt; list.as_slice(), &[3, 4][..]);
    assert_eq!(rt; List::from_vec(list.into_vec()).as_slice(), &[3, 4][..]);
    Ok(())
}

#[test]
fn faults_have_texts(rt: HostRuntime) -> Result<(), Fail> {
    assert_eq!(rt;
        format!(in rt.alloc(); "{NoMem}")?.as_str(),
        "out of memory"
    );
    assert_eq!(rt;
        format!(in rt.alloc(); "{SourceFault}, {SinkFault}")?.as_str(),
        "a read failed, a write failed"
    );
    assert!(rt; matches!(TextFault::from(NoMem), TextFault::NoMem));
    Ok(())
}

#[test]
fn a_clock_tells_its_last_moment_for_good(rt: HostRuntime) -> Result<(), Fail> {
    let moments = vec![in rt.alloc(); TimeSpec { sec: 5, nsec: 0 }, TimeSpec { sec: 3, nsec: 1 }]?;
    let mut clock = MemClock::new(List::from_vec(moments));
    for seconds in [5, 3, 3, 3] {
        assert_eq!(rt; seconds_now(&mut clock), seconds);
    }
    Ok(())
}

#[test]
fn texts_and_numbers_are_copied(rt: HostRuntime) -> Result<(), Fail> {
    let alloc = rt.alloc();
    let mut texts = Vec::new(alloc);
    texts.push(Bytes::of(alloc, b"a")?)?;
    texts.push(Bytes::new(alloc))?;
    let copy = copy_texts(alloc, &texts)?;
    assert_eq!(rt; copy.as_slice().len(), 2);
    assert_eq!(rt; copy.as_slice()[0].as_slice(), b"a".as_slice());
    assert!(rt; copy.as_slice()[1].as_slice().is_empty());
    assert_eq!(rt;
        copy_numbers(alloc, &[1, -2])?.as_slice(),
        [1, -2].as_slice()
    );
    Ok(())
}
