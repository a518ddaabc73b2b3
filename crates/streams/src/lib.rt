// Reading the front of a stream: standard input, or a file.
#![tactic(auto)]

ghost use Rattle.std.specs.Prelude.{take};
ghost use Rattle.streams.specs.Counts.{IsPrefixLen};
ghost use Rattle.std.specs.Io.KnownBytes.{Consumes};

use std::io::Read;

// Reads until the buffer is full, the stream ends or a read fails, and answers how many bytes it put at the front of
// the buffer: those that it took from the stream.
pub fn read_full<R: Read>(reader: &mut R, buffer: &mut [u8]) -> usize
    ensures inside { IsPrefixLen result buffer.new }
    ensures taken { Consumes (R.remaining reader.old) (R.remaining reader.new) (take result buffer.new) }
{
    let mut done = 0;
    // a cursor: each step's width depends on what the read gave
    while done < buffer.len() {
        match reader.read(&mut buffer[done..]) {
            Ok(count) if 0 < count => done += count,
            _ => break,
        }
    }
    done
}
