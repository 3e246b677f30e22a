//! Files and sinks in memory, with faults in mid-stream.
use hw_io::{Failed, Files, Gather, MemFile, MemFiles, MemSink, ReadEnd, read_whole, write_whole};
use std::alloc::{AllocError, Global};
use std::test::Fail;

// One file, of this many bytes `x`, whose reading fails in these calls.
fn files_of(alloc: Global, size: usize, fails: &[u64]) -> Result<MemFiles, AllocError> {
    let file = MemFile {
        name: b"a.net".to_vec(alloc)?,
        bytes: vec![in alloc; b'x'; size]?,
        faults: 0,
    };
    Ok(MemFiles {
        held: vec![in alloc; file]?,
        fails: fails.to_vec(alloc)?,
        calls: 0,
    })
}

#[test]
fn pieces_make_a_whole(rt: HostRuntime) -> Result<(), Fail> {
    let alloc = rt.alloc();
    let mut files = files_of(alloc, 70_000, &[])?;
    let bytes = read_whole(alloc, &mut files, "a.net", 70_000)?;
    assert_eq!(rt; bytes.len(), 70_000);
    assert_eq!(rt; files.calls, 3);
    let too_long = read_whole(alloc, &mut files, "a.net", 69_999);
    assert_eq!(rt; too_long.err(), Some(ReadEnd::TooLong));
    Ok(())
}

#[test]
fn a_piece_fails_in_mid_file(rt: HostRuntime) -> Result<(), Fail> {
    let alloc = rt.alloc();
    let mut files = files_of(alloc, 70_000, &[2])?;
    let fault = read_whole(alloc, &mut files, "a.net", 70_000);
    assert_eq!(rt; fault.err(), Some(ReadEnd::Fault));
    assert_eq!(rt; files.held.iter().map(|file| file.faults).max(), Some(1));
    assert_eq!(rt;
        read_whole(alloc, &mut files, "a.net", 70_000)?.len(),
        70_000
    );
    assert_eq!(rt; files.piece("b.net", 0, &mut []), Err(Failed));
    Ok(())
}

#[test]
fn a_put_fails_in_mid_stream(rt: HostRuntime) -> Result<(), Fail> {
    let alloc = rt.alloc();
    let mut sink = MemSink::new(alloc, 100, 4, [3].to_vec(alloc)?)?;
    assert_eq!(rt; write_whole(&mut sink, b"0123456"), Ok(()));
    assert_eq!(rt; write_whole(&mut sink, b"789"), Err(Failed));
    assert_eq!(rt; write_whole(&mut sink, b"89"), Ok(()));
    assert_eq!(rt; sink.written(), b"012345689".as_slice());
    Ok(())
}

#[test]
fn room_runs_out(rt: HostRuntime) -> Result<(), Fail> {
    let alloc = rt.alloc();
    let mut sink = MemSink::new(alloc, 6, 4, Vec::new(alloc))?;
    assert_eq!(rt; write_whole(&mut sink, b"01234567"), Err(Failed));
    assert_eq!(rt; sink.written(), b"012345".as_slice());
    assert_eq!(rt; write_whole(&mut sink, b""), Ok(()));
    Ok(())
}

#[test]
fn pushes_come_out_in_order(rt: HostRuntime) -> Result<(), Fail> {
    let alloc = rt.alloc();
    let mut sink = MemSink::new(alloc, 200_000, 200_000, Vec::new(alloc))?;
    let mut gather = Gather::new(alloc)?;
    let large = vec![in alloc; b'x'; 70_000]?;
    assert_eq!(rt; gather.push(&mut sink, b"one "), Ok(()));
    assert_eq!(rt; sink.written().len(), 0);
    assert_eq!(rt; gather.push(&mut sink, &large), Ok(()));
    assert_eq!(rt; gather.push(&mut sink, b" two"), Ok(()));
    assert_eq!(rt; sink.written().len(), 70_004);
    assert_eq!(rt; gather.flush(&mut sink), Ok(()));
    assert!(rt; sink.written().starts_with(b"one xx"));
    assert!(rt; sink.written().ends_with(b"xx two"));
    Ok(())
}
