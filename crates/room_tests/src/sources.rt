// What no clause shows: the calls succeed, and the adapters hand on std's bytes and faults.
ghost use Rattle.std.specs.Prelude.{◌≤◌};

use io_edge::*;
use std::alloc::Global;
use std::fs;
use std::io::{self, Read, Write};
use std::rt::Files;
use std::test::Fail;

/// A reader that gives one byte a call, and fails at the call with this number.
#[derive(Drop)]
struct FailingReader {
    call: u64,
    failing: u64,
}

impl Read for FailingReader {
    fn read(&mut self, buf: &mut [u8]) -> io::Result<usize> {
        let call = self.call;
        self.call = call.saturating_add(1);
        if call == self.failing {
            return Err(io::Error::from(io::ErrorKind::Other));
        }
        match buf {
            [] => Ok(0),
            [first, ..] => {
                *first = b'a';
                Ok(1)
            }
        }
    }
}

/// A writer that takes nothing.
#[derive(Drop)]
struct FullWriter;

impl Write for FullWriter {
    fn write(&mut self, _buf: &[u8]) -> io::Result<usize> {
        Ok(0)
    }

    fn flush(&mut self) -> io::Result<()> {
        Ok(())
    }
}

fn source(alloc: Global, text: &[u8], piece: usize, failing: &[u64]) -> Result<MemSource, Fail>
    requires { 1 ≤ piece }
{
    Ok(MemSource::new(text.to_vec(alloc)?, piece, failing.to_vec(alloc)?))
}

#[test]
fn memory_source_is_read_to_its_end(rt: HostRuntime) -> Result<(), Fail> {
    let alloc = rt.alloc();
    for piece in 1..5 {
        let mut whole = source(alloc, b"abc", piece, &[])?;
        let bytes = read_all(alloc, &mut whole, 3).ok().ok_or("not read")?;
        assert!(rt; bytes.as_slice() == b"abc".as_slice());
        let mut long = source(alloc, b"abcd", piece, &[])?;
        let mut failing = source(alloc, b"abc", piece, &[1])?;
        let refusals = [
            read_all(alloc, &mut long, 3).err(),
            read_all(alloc, &mut failing, 3).err(),
        ];
        assert!(rt; refusals == [Some(ReadAllError::TooLong), Some(ReadAllError::Failed)]);
    }
    Ok(())
}

/// The bytes of one read into a buffer of eight.
fn piece_of(alloc: Global, source: &mut MemSource) -> Result<Vec<u8>, Fail> {
    let mut buf = [0u8; 8];
    let count = source.read(&mut buf).ok().ok_or("not read")?;
    Ok(buf[..count].to_vec(alloc)?)
}

#[test]
fn memory_source_gives_whole_pieces(rt: HostRuntime) -> Result<(), Fail> {
    let alloc = rt.alloc();
    let mut pieces = source(alloc, b"abcdefgh", 3, &[2])?;
    assert!(rt; piece_of(alloc, &mut pieces)?.as_slice() == b"abc".as_slice());
    assert!(rt; piece_of(alloc, &mut pieces)?.as_slice() == b"def".as_slice());
    assert!(rt; pieces.read(&mut [0u8; 8]) == Err(Failed));
    assert!(rt; piece_of(alloc, &mut pieces)?.as_slice() == b"gh".as_slice());
    assert!(rt; piece_of(alloc, &mut pieces)?.is_empty());
    let mut whole = source(alloc, b"abcdefghij", 100, &[])?;
    assert!(rt; piece_of(alloc, &mut whole)?.as_slice() == b"abcdefgh".as_slice());
    Ok(())
}

/// Whether a sink with so much room that fails at these calls has these bytes of a text in the end, and the answer to it is this.
fn keeps(
    alloc: Global,
    room: usize,
    failing: &[u64],
    answer: Result<(), Failed>,
    kept: &[u8],
) -> Result<bool, Fail> {
    let mut sink = MemSink::new(alloc, room, 3, failing.to_vec(alloc)?)?;
    let written = write_all_counted(&mut sink, b"1 std i\n");
    Ok(written == answer && sink.bytes() == kept)
}

#[test]
fn memory_sink_keeps_what_fits(rt: HostRuntime) -> Result<(), Fail> {
    let alloc = rt.alloc();
    assert!(rt; keeps(alloc, 7, &[], Err(Failed), b"1 std i")?);
    assert!(rt; keeps(alloc, 100, &[1], Err(Failed), b"1 s")?);
    assert!(rt; keeps(alloc, 100, &[], Ok(()), b"1 std i\n")?);
    assert!(rt; write_all_counted(&mut NoSink, b"1 std i\n").is_ok());
    Ok(())
}

#[test]
fn a_reader_of_std_is_a_source(rt: HostRuntime) -> Result<(), Fail> {
    let alloc = rt.alloc();
    let mut source = StdSource::new(b"abc".as_slice());
    let bytes = read_all(alloc, &mut source, 3).ok().ok_or("not read")?;
    assert!(rt; bytes.as_slice() == b"abc".as_slice());
    let mut failing = StdSource::new(FailingReader {
        call: 0,
        failing: 2,
    });
    let refusals = [
        read_all(alloc, &mut failing, 100).err(),
        read_all(alloc, &mut failing, 100).err(),
    ];
    assert!(rt; refusals == [Some(ReadAllError::Failed), Some(ReadAllError::TooLong)]);
    Ok(())
}

#[test]
fn a_writer_of_std_is_a_sink(rt: HostRuntime) -> Result<(), Fail> {
    let mut sink = StdSink::new(Vec::new(rt.alloc()));
    let mut full = StdSink::new(FullWriter);
    let answers = [
        write_all_counted(&mut sink, b"abc"),
        write_all_counted(&mut full, b"abc"),
        write_all_counted(&mut full, b""),
    ];
    assert!(rt; answers == [Ok(()), Err(Failed), Ok(())]);
    Ok(())
}

/// What it answers to write a text to the file at this path, in two pieces.
fn write_file<R: Files + AllocGlobal + Clone + Drop>(
    rt: &R,
    path: &str,
) -> Result<Result<(), Failed>, Fail> {
    let path = String::from_str(rt.alloc(), path)?;
    let mut sink = FileSink::new(rt.clone()?, path);
    if write_all_counted(&mut sink, b"1 std").is_err() {
        return Ok(Err(Failed));
    }
    Ok(write_all_counted(&mut sink, b" i\n"))
}

#[test]
fn a_file_is_a_sink(rt: HostRuntime) -> Result<(), Fail> {
    // a file, one in a folder that isn't there, and a device that is full
    let answers = [
        write_file(&rt, "answer")?,
        write_file(&rt, "missing/answer")?,
        write_file(&rt, "/dev/full")?,
    ];
    assert!(rt; answers == [Ok(()), Err(Failed), Err(Failed)]);
    let text = fs::read_to_string(&rt, "answer")?;
    assert!(rt; text.as_str() == "1 std i\n");
    Ok(())
}
