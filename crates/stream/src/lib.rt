// Reading into a buffer, over any reader.
#![tactic(auto)]

ghost use Rattle.std.specs.Prelude.{◌≡◌, ◌≤◌, ◌<◌, false, true, length, take};
ghost use Rattle.std.specs.Io.KnownBytes.{Consumes, IsAtEnd};

use std::io::Read;

// How many bytes were read, and whether a read failed.
// Kept: the count is an answer where a read fails too, as the clauses of `read_all` say and most callers
// use it, so a `Result` would hold it on both sides.
#[derive(Clone, Copy)]
pub struct Input {
    pub count: usize,
    pub failed: bool,
}

// Reads until the input ends, the buffer is full or a read fails. What stands past the count is free:
// a reader may have used that room. When a read fails no clause can say, that is the reader's.
pub fn read_all<R: Read>(input: &mut R, buf: &mut [u8]) -> Input
    ensures bound { result.count ≤ length buf.new }
    ensures bytes { Consumes (R.remaining input.old) (R.remaining input.new) (take result.count buf.new) }
    ensures room { result.failed ≡ true → result.count < length buf.new }
    ensures end { result.failed ≡ false → result.count < length buf.new → IsAtEnd (R.remaining input.new) }
{
    let mut count = 0;
    // Kept: a `while`, as a turn reads as much as the reader gives.
    while count < buf.len() {
        match input.read(&mut buf[count..]) {
            Ok(0) => {
                return Input {
                    count,
                    failed: false,
                };
            }
            Ok(more) => count += more,
            Err(_) => {
                return Input {
                    count,
                    failed: true,
                };
            }
        }
    }
    Input {
        count,
        failed: false,
    }
}
