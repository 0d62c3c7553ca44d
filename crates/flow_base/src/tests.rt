use super::*;
use std::alloc::Global;
use std::test::Fail;

/// A list of files from names and their bytes.
fn files(alloc: Global, named: &[(&str, &[u8])]) -> Result<Vec<(String, Vec<u8>)>, Fail> {
    let mut files = Vec::new(alloc);
    for (name, bytes) in named {
        files.push((String::from_str(alloc, name)?, bytes.to_vec(alloc)?))?;
    }
    Ok(files)
}

#[test]
fn reads_a_byte_at_a_time(rt: HostRuntime) -> Result<(), Fail> {
    let alloc = rt.alloc();
    let named = files(
        alloc,
        &[("other", b"xyz"), ("f", b"first"), ("f", b"second")],
    )?;
    let mut shelf = MemShelf::new(alloc, named, 1, Vec::new(alloc));
    shelf.open("f")?;
    assert_eq!(rt;
        read_all(alloc, &mut shelf, 100)?.as_slice(),
        b"first".as_slice()
    );
    let mut piece = [0u8; 4];
    assert_eq!(rt; shelf.read(&mut piece), Ok(0));
    shelf.open("other")?;
    assert_eq!(rt; shelf.read(&mut piece), Ok(1));
    assert_eq!(rt; piece[0], b'x');
    Ok(())
}

#[test]
fn refuses_more_than_the_limit(rt: HostRuntime) -> Result<(), Fail> {
    let alloc = rt.alloc();
    let named = files(alloc, &[("f", b"abc")])?;
    let mut shelf = MemShelf::new(alloc, named, 2, Vec::new(alloc));
    shelf.open("f")?;
    assert_eq!(rt;
        read_all(alloc, &mut shelf, 2).err(),
        Some(ReadError::TooLong)
    );
    shelf.open("f")?;
    assert_eq!(rt;
        read_all(alloc, &mut shelf, 3)?.as_slice(),
        b"abc".as_slice()
    );
    Ok(())
}

#[test]
fn fails_where_it_is_told_to(rt: HostRuntime) -> Result<(), Fail> {
    let alloc = rt.alloc();
    let named = files(alloc, &[("f", b"abcd")])?;
    let mut shelf = MemShelf::new(alloc, named, 2, [2, 5].to_vec(alloc)?);
    assert_eq!(rt; shelf.open("missing"), Err(OpenError::Failed));
    assert_eq!(rt; shelf.open("f"), Err(OpenError::Failed));
    shelf.open("f")?;
    let mut piece = [0u8; 4];
    assert_eq!(rt; shelf.read(&mut piece), Ok(2));
    assert_eq!(rt; shelf.read(&mut piece), Err(Failed));
    assert_eq!(rt;
        read_all(alloc, &mut shelf, 2)?.as_slice(),
        b"cd".as_slice()
    );
    Ok(())
}

#[test]
fn a_fault_ends_the_reading(rt: HostRuntime) -> Result<(), Fail> {
    let alloc = rt.alloc();
    let named = files(alloc, &[("f", b"abcd")])?;
    let mut shelf = MemShelf::new(alloc, named, 2, [3].to_vec(alloc)?);
    shelf.open("f")?;
    assert_eq!(rt;
        read_all(alloc, &mut shelf, 100).err(),
        Some(ReadError::ReadFault)
    );
    Ok(())
}

#[test]
fn writes_a_byte_at_a_time(rt: HostRuntime) -> Result<(), Fail> {
    let alloc = rt.alloc();
    let mut sink = MemSink::new(alloc, 1, Vec::new(alloc))?;
    assert_eq!(rt; write_all_of(&mut sink, b"abc"), Ok(()));
    assert_eq!(rt; write_all_of(&mut sink, b""), Ok(()));
    assert_eq!(rt; sink.held(), b"abc".as_slice());
    Ok(())
}

/// Ten bytes at three a write are four writes, since each is offered all that is left.
#[test]
fn a_failing_write_leaves_the_front(rt: HostRuntime) -> Result<(), Fail> {
    let alloc = rt.alloc();
    for (failing, held) in [
        (2, b"abc".as_slice()),
        (4, b"abcdefghi".as_slice()),
        (5, b"abcdefghij".as_slice()),
    ] {
        let mut sink = MemSink::new(alloc, 3, [failing].to_vec(alloc)?)?;
        let outcome = write_all_of(&mut sink, b"abcdefghij");
        assert_eq!(rt; outcome.is_ok(), failing == 5);
        assert_eq!(rt; sink.held(), held);
    }
    Ok(())
}

#[test]
fn refuses_more_than_its_room(rt: HostRuntime) -> Result<(), Fail> {
    let alloc = rt.alloc();
    let mut sink = MemSink::new(alloc, 1_048_576, Vec::new(alloc))?;
    let whole = vec![in alloc; b'a'; 1_048_575]?;
    assert_eq!(rt; write_all_of(&mut sink, whole.as_slice()), Ok(()));
    assert_eq!(rt; sink.write(b"bc"), Err(Failed));
    assert_eq!(rt; sink.write(b"b"), Ok(1));
    assert_eq!(rt; sink.held().len(), 1_048_576);
    Ok(())
}

#[test]
fn the_real_ones_read_and_write(rt: HostRuntime) -> Result<(), Fail> {
    let mut out = RealSink::out(&rt);
    let mut err = RealSink::err(&rt);
    assert_eq!(rt;
        write_all_of(&mut out, b"written to standard output\n"),
        Ok(())
    );
    assert_eq!(rt;
        write_all_of(&mut err, b"written to standard error\n"),
        Ok(())
    );
    let alloc = rt.alloc();
    let mut shelf = RealShelf::new(rt, alloc);
    shelf.open("/dev/zero")?;
    let refused = read_all(alloc, &mut shelf, 10_000).err();
    shelf.open("/dev/null")?;
    let empty = read_all(alloc, &mut shelf, 10)?;
    let missing = shelf.open("/dev/null/missing");
    if refused != Some(ReadError::TooLong)
        || !empty.is_empty()
        || missing != Err(OpenError::Failed)
    {
        return Err(Fail::from("the real shelf read otherwise"));
    }
    Ok(())
}
