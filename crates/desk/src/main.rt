// The desk program: a job from standard input, its answers to standard output. At most 65,535 bytes are read.
#![tactic(auto)]

ghost use Rattle.std.specs.Prelude.{◌≤◌, length, IfOk};

use both_ends::MOST_PRINTED;
use std::io::{self, Read, Write};

// Reads until `buf` is full or the input ends; how many bytes it read.
fn read_full<R: Read>(reader: &mut R, buf: &mut [u8]) -> io::Result<usize>
    ensures { IfOk result (λ n. n ≤ length buf.new) }
{
    let mut done = 0;
    // No index counted by hand: each read gives as many bytes as it has.
    while done < buf.len() {
        let n = reader.read(&mut buf[done..])?;
        if n == 0 {
            break;
        }
        done += n;
    }
    Ok(done)
}

fn write_answers<W: Write>(writer: &mut W, answers: &[u8]) -> io::Result<()> {
    writer.write_all(answers)?;
    writer.flush()
}

fn main(rt: HostRuntime) -> io::Result<()> {
    let mut input = [0u8; 65535];
    let mut output = [0u8; MOST_PRINTED];
    let n = read_full(&mut rt.reader(), &mut input)?;
    let k = both_ends::run(&input[..n], &mut output);
    write_answers(&mut io::writer(&rt), &output[..k])
}
