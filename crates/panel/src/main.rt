// The program: a configuration on standard input, the panel's points on standard output.
#![tactic(auto)]

ghost use Rattle.std.specs.Prelude.{◌<◌, IfOk, IfSome, OnOk, length, take};
ghost use Rattle.std.specs.Io.{ReadsAtMost};
ghost use Rattle.std.specs.Io.KnownBytes.{Appends, Consumes, IsAtEnd};
ghost use Rattle.model.specs.Report.{answer};

use model::Tables;
use std::io;
use std::io::{Read, Write};

// Reads until the buffer is full or the input ends, and returns how many bytes it put at the buffer's start.
fn read_full<R: Read>(reader: &mut R, buffer: &mut [u8]) -> io::Result<usize>
    ensures count { ReadsAtMost result buffer.new }
    ensures bytes { IfOk result (λ n. Consumes (R.remaining reader.old) (R.remaining reader.new) (take n buffer.new)) }
    ensures end { IfOk result (λ n. n < length buffer.new → IsAtEnd (R.remaining reader.new)) }
{
    let mut done = 0;
    // Kept: how far a turn comes is what the reader says, and std's `read_to_end` needs the heap, which the project doesn't use.
    while done < buffer.len() {
        let n = reader.read(&mut buffer[done..])?;
        if n == 0 {
            return Ok(done);
        }
        done += n;
    }
    Ok(done)
}

// Writes the report of all that there is to read. Where a read fails nothing is written, since the report is of whole inputs only.
fn write_report<R: Read, W: Write>(reader: &mut R, writer: &mut W) -> io::Result<()>
    ensures { OnOk result
        (IfSome (R.remaining reader.old) (λ input. Appends (W.contents writer.old) (W.contents writer.new) (answer input))) }
{
    // Kept: arrays of the lengths that the library asks for, since the project has no heap.
    let mut rows = [0u64; 4096];
    let mut keys = [0u64; 256];
    let mut heads = [0u64; 1024];
    let mut arguments = [0u64; 1024];
    let mut outcomes = [0u64; 1024];
    let mut commands = [0u64; 32];
    let mut steps = [0u64; 512];
    let mut points = [0u8; migladze::REPORT_SIZE];
    // One byte more than the longest input that is taken, so that a longer one is seen to be too long.
    let mut input = [0u8; 32769];
    let n = read_full(reader, &mut input)?;
    let tables = Tables {
        rows: &mut rows,
        keys: &mut keys,
        heads: &mut heads,
        arguments: &mut arguments,
        outcomes: &mut outcomes,
        commands: &mut commands,
        steps: &mut steps,
    };
    let count = migladze::report(&input[..n], tables, &mut points);
    writer.write_all(&points[..count])
}

// Ends with the error of a read or a write that fails.
fn main(rt: HostRuntime) -> io::Result<()> {
    write_report(&mut rt.stdin(), &mut rt.stdout())
}

#[cfg(test)]
mod tests {
    use super::*;
    use std::io::{Error, ErrorKind};

    // Two digits of a line, and then no more: a pipe that breaks.
    #[derive(Drop)]
    struct Broken {
        is_read: bool,
    }

    impl Read for Broken {
        fn read(&mut self, buffer: &mut [u8]) -> io::Result<usize> {
            if self.is_read || buffer.len() < 2 {
                return Err(Error::from(ErrorKind::BrokenPipe));
            }
            self.is_read = true;
            buffer[0] = b'8';
            buffer[1] = b'1';
            Ok(2)
        }
    }

    #[test]
    fn nothing_is_written_of_a_broken_input(rt: HostRuntime) {
        let mut written = Vec::new(rt.alloc());
        let ended = write_report(&mut Broken { is_read: false }, &mut written);
        assert!(rt; ended.is_err());
        assert!(rt; written.is_empty());
    }
}
