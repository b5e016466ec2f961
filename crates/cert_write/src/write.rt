//! The first and the last line of a certificate, which take no memory.

ghost use Rattle.std.specs.Prelude.{◌≡◌, ◌++◌, codes, decimal};
ghost use Rattle.cert_grammar.specs.Lines.{line_text};
ghost use Rattle.cert_grammar.specs.Cert.{head_line, numbered};
ghost use Rattle.cert_write.specs.Writes.{Writes};

use io_edge::{Failed, Sink, write_all_counted};
use itoa::Buffer;

/// Writes a piece of text.
fn write_piece<C: Sink>(sink: &mut C, piece: &[u8]) -> Result<(), Failed>
    ensures { Writes (C.written sink.old) (C.written sink.new) (C.faults sink.old) (C.faults sink.new) result piece.now }
{
    write_all_counted(sink, piece)
}

/// Writes a number.
fn write_number<C: Sink>(sink: &mut C, n: u32) -> Result<(), Failed>
    ensures { Writes (C.written sink.old) (C.written sink.new) (C.faults sink.old) (C.faults sink.new) result (decimal n) }
{
    let mut buffer = Buffer::new();
    write_piece(sink, buffer.format(n).as_bytes())
}

/// Writes the first line.
pub fn write_head<C: Sink>(sink: &mut C) -> Result<(), Failed>
    ensures { Writes (C.written sink.old) (C.written sink.new) (C.faults sink.old) (C.faults sink.new) result (line_text head_line) }
{
    write_piece(sink, b"lstd-cert 1\n")
}

/// Writes a number and the end of the line.
fn write_last<C: Sink>(sink: &mut C, n: u32) -> Result<(), Failed>
    ensures { Writes (C.written sink.old) (C.written sink.new) (C.faults sink.old) (C.faults sink.new) result (decimal n ++ codes "\n") }
{
    write_number(sink, n)?;
    write_piece(sink, b"\n")
}

/// Writes what stands before a line's last number, that number, and the end of the line.
fn write_numbered<C: Sink>(sink: &mut C, front: &[u8], n: u32) -> Result<(), Failed>
    ensures { Writes (C.written sink.old) (C.written sink.new) (C.faults sink.old) (C.faults sink.new) result
        (front.now ++ (decimal n ++ codes "\n")) }
{
    write_piece(sink, front)?;
    write_last(sink, n)
}

/// Writes the last line.
pub fn write_done<C: Sink>(sink: &mut C, blocks: u32) -> Result<(), Failed>
    ensures { Writes (C.written sink.old) (C.written sink.new) (C.faults sink.old) (C.faults sink.new) result
        (line_text (numbered (codes "done") blocks)) }
{
    write_numbered(sink, b"done ", blocks)
}
