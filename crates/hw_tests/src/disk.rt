//! Files of a disk and streams: real ones, a file that is replaced while it is read, and calls that are interrupted.
ghost use Rattle.std.specs.Prelude.{◌≡◌, Some};

use hw_io::{Disk, DiskFiles, Failed, Files, PIECE_BYTES, StdSink, read_whole, write_whole};
use std::alloc::{AllocError, Global};
use std::fs::File;
use std::io::{Error, ErrorKind, Read, Write};
use std::test::Fail;
use std::{fs, io, process};

// A reader or a writer, of which every second call is interrupted, from the first on.
#[derive(Drop)]
struct Interrupted<T> {
    inner: T,
    is_next: bool,
}

impl<T> Interrupted<T> {
    fn new(inner: T) -> Interrupted<T>
        ensures { result.inner ≡ inner }
    {
        Interrupted {
            inner,
            is_next: true,
        }
    }

    // Whether this call is interrupted; then the next one is not.
    fn is_interrupted(&mut self) -> bool
        ensures { self.new.inner ≡ self.old.inner }
    {
        let is_now = self.is_next;
        self.is_next = !is_now;
        is_now
    }
}

impl<R: Read> Read for Interrupted<R> {
    ghost remaining = { λ reader. R.remaining reader.inner };

    fn read(&mut self, buf: &mut [u8]) -> io::Result<usize> {
        if self.is_interrupted() {
            return Err(Error::from(ErrorKind::Interrupted));
        }
        self.inner.read(buf)
    }
}

impl<W: Write> Write for Interrupted<W> {
    ghost contents = { λ writer. W.contents writer.inner };

    fn write(&mut self, buf: &[u8]) -> io::Result<usize> {
        if self.is_interrupted() {
            return Err(Error::from(ErrorKind::Interrupted));
        }
        self.inner.write(buf)
    }

    fn flush(&mut self) -> io::Result<()> {
        self.inner.flush()
    }
}

// A disk on which each name has these bytes, and whose reads are interrupted.
#[derive(Drop)]
struct OneText<'a> {
    bytes: &'a [u8],
}

impl<'a> Disk for OneText<'a> {
    type Open = Interrupted<&'a [u8]>;

    ghost content = { λ disk _. Some disk.bytes.now };

    fn open(&self, _name: &str, at: u64) -> io::Result<Interrupted<&'a [u8]>> {
        let bytes = self.bytes;
        Ok(Interrupted::new(&bytes[bytes.len().min(at as usize)..]))
    }
}

// So many bytes, of which no 251 beside each other are the same.
fn bytes_of(alloc: Global, count: usize, first: u8) -> Result<Vec<u8>, AllocError> {
    let mut bytes = Vec::with_capacity(alloc, count)?;
    for index in 0..count {
        bytes.push((index % 251) as u8 ^ first)?;
    }
    Ok(bytes)
}

#[test]
fn a_stream_becomes_a_file(rt: HostRuntime) -> Result<(), Fail> {
    let alloc = rt.alloc();
    let path = format!(in alloc; "hw_io_stream_{}", process::id(rt.process()))?;
    let bytes = bytes_of(alloc, 200_000, 0)?;
    let mut sink = StdSink::new(File::create(&rt, path.as_str())?);
    assert_eq!(rt; write_whole(&mut sink, &bytes), Ok(()));
    let mut files = DiskFiles::new(&rt, alloc, &["missing", path.as_str()])?;
    let whole = read_whole(alloc, &mut files, path.as_str(), 200_000);
    fs::remove_file(&rt, path.as_str())?;
    assert!(rt; whole?.as_slice() == bytes.as_slice());
    assert_eq!(rt; files.piece(path.as_str(), 0, &mut [0; 4]), Err(Failed));
    assert_eq!(rt; files.piece("missing", 0, &mut [0; 4]), Err(Failed));
    assert_eq!(rt; files.piece("unknown", 0, &mut [0; 4]), Err(Failed));
    Ok(())
}

#[test]
fn a_file_is_replaced_while_it_is_read(rt: HostRuntime) -> Result<(), Fail> {
    let alloc = rt.alloc();
    let path = format!(in alloc; "hw_io_replaced_{}", process::id(rt.process()))?;
    fs::write(&rt, path.as_str(), &bytes_of(alloc, 70_000, 0)?)?;
    let mut files = DiskFiles::new(&rt, alloc, &[path.as_str()])?;
    let mut first = vec![in alloc; 0u8; PIECE_BYTES]?;
    let count = files.piece(path.as_str(), 0, &mut first)?;
    fs::remove_file(&rt, path.as_str())?;
    fs::write(&rt, path.as_str(), &bytes_of(alloc, 70_000, 255)?)?;
    let mut rest = [0; 4];
    let read_on = files.piece(path.as_str(), count as u64, &mut rest);
    let mut anew = [0; 4];
    let read_anew = files.piece(path.as_str(), 0, &mut anew);
    fs::remove_file(&rt, path.as_str())?;
    assert_eq!(rt; (count, read_on, read_anew), (65_536, Ok(4), Ok(4)));
    assert_eq!(rt; rest, [25, 26, 27, 28]);
    assert_eq!(rt; anew, [255, 254, 253, 252]);
    Ok(())
}

#[test]
fn interrupted_calls_are_tried_again(rt: HostRuntime) -> Result<(), Fail> {
    let alloc = rt.alloc();
    let bytes = bytes_of(alloc, 70_000, 0)?;
    let mut files = DiskFiles::new(OneText { bytes: &bytes }, alloc, &["text"])?;
    let whole = read_whole(alloc, &mut files, "text", 70_000)?;
    assert!(rt; whole.as_slice() == bytes.as_slice());
    let mut rest = [0; 4];
    assert_eq!(rt; files.piece("text", 69_998, &mut rest), Ok(2));
    assert_eq!(rt; rest, [220, 221, 0, 0]);
    let mut written = Vec::new(alloc);
    let mut sink = StdSink::new(Interrupted::new(&mut written));
    assert_eq!(rt; write_whole(&mut sink, b"on and "), Ok(()));
    assert_eq!(rt; write_whole(&mut sink, b"on"), Ok(()));
    drop(sink);
    assert_eq!(rt; written.as_slice(), b"on and on".as_slice());
    Ok(())
}
