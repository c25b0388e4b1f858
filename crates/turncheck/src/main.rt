// Reads one record from standard input, and prints the verdict on its model or the refusal.
#![tactic(auto)]

ghost use Rattle.turncheck.specs.Within.{Within, Whole};

use std::io;
use std::io::Read;

// 671 bytes of the input decide the answer: the longest record has 670, and reading stops at the first fault (a law of `record`,
// `decided`).
fn main(rt: HostRuntime) -> io::Result<()> {
    let mut bytes = [0u8; 671];
    match read_all(&mut rt.stdin(), &mut bytes) {
        Ok(n) => print_report(&rt, &bytes[..n]),
        Err(_) => eprintln!(rt; "turncheck: standard input cannot be read"),
    }
}

// Prints what is to be said of the bytes of a record.
fn print_report(rt: &impl Print, bytes: &[u8]) -> io::Result<()> {
    let mut text = [0u8; report::TEXT_ROOM];
    let size = report::report(bytes, &mut text);
    rt.write_all(&text[0..size])
}

// The input up to its end, or as much of it as the buffer holds, in however many pieces it comes; how many bytes stand at the front of the
// buffer.
fn read_all<R: Read>(input: &mut R, buffer: &mut [u8]) -> io::Result<usize>
    ensures within { Within result buffer.new }
    ensures whole { Whole (R.remaining input.old) (R.remaining input.new) result buffer.new }
{
    let mut size = 0;
    // a `while`: each read says how far it came
    while size < buffer.len() {
        let n = input.read(&mut buffer[size..])?;
        if n == 0 {
            return Ok(size);
        }
        size += n;
    }
    Ok(size)
}
