// Standard input, read whole.
//
// Job: reads an input into a buffer.
// May use: std alone.
// Main promise: no more is said to have come than the buffer holds; and of an input whose bytes are known, as one over
// memory, all are read, or as many as there is room for. What the system's input holds no contract can say.

#![tactic(auto)]

ghost use Rattle.std.specs.Prelude.{◌≤◌, length, IfOk};
ghost use Rattle.input.specs.Input.{ReadsWhole};

use std::io;
use std::io::Read;

// The most bytes of standard input that a program reads.
pub const MOST_INPUT: usize = 65_536;

// Reads into `buf` until it is full or the input ends, and says how much came. Into a caller's buffer and no Vec, so
// that it cannot run out of memory.
pub fn read_input<R: Read>(input: &mut R, buf: &mut [u8]) -> io::Result<usize>
    ensures within { IfOk result (λ n. n ≤ length buf.old) }
    ensures known { IfOk result (ReadsWhole (R.remaining input.old) (R.remaining input.new) (length buf.old)) }
{
    let size = buf.len();
    let mut room = buf;
    while !room.is_empty() {
        match input.read(room)? {
            0 => break,
            n => room = &mut room[n..],
        }
    }
    Ok(size - room.len())
}
