// Reads a request from standard input, and writes to standard output what answers it.
//
// Half a request can be another request, as a `check` without its last rows is. So none is judged:
// where a read fails, nothing is written, and that is no answer.

#![tactic(auto)]

ghost use Rattle.std.specs.Prelude.{IfOk};
ghost use Rattle.judge.specs.Input.{IsWholeInput};

use buffer::ALL_NUMBERS;
use checker::judge_text;
use replies::{BYTES, Reply};
use std::io::{self, Read, Write};

// Of a request that is too long, one byte more than the longest is read.
const READ: usize = BYTES + 1;

// Reads until the buffer is full, the input ends or a read fails, and counts the bytes. `read_to_end`
// would go on where a signal breaks a read off.
fn read_whole<R: Read>(input: &mut R, buffer: &mut [u8]) -> io::Result<usize>
    ensures { IfOk result (λ n. IsWholeInput (R.remaining input.old) (R.remaining input.new) n buffer.new) }
{
    let mut n = 0;
    // A read says how many bytes it gave.
    while n < buffer.len() {
        let more = input.read(&mut buffer[n..])?;
        if more == 0 {
            return Ok(n);
        }
        n += more;
    }
    Ok(n)
}

fn main(rt: HostRuntime) {
    let mut request = [0u8; READ];
    let Ok(n) = read_whole(&mut rt.stdin(), &mut request) else {
        return;
    };
    let mut numbers = [0usize; ALL_NUMBERS];
    let mut text = [0u8; Reply::TEXT];
    let m = judge_text(&request[..n], &mut numbers, &mut text);
    // Nobody is left to be told where a write fails.
    let _ = rt.stdout().write_all(&text[..m]);
}
