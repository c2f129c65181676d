#![tactic(auto)]
// Answers the sheet on standard input. A sheet has at most 6,738 bytes: one byte more is read, so that a longer one is seen to be, and nothing after it.
ghost use Rattle.std.specs.Prelude.{◌≤◌, length};

use answer::ANSWER_ROOM;
use sheet::SHEET_LIMIT;
use std::io::Read;

const READ_LIMIT: usize = SHEET_LIMIT + 1;

// Reads to the end of the buffer or of the input, or up to a read that fails: how many bytes those are. The loop counts no index: a read gives as many bytes
// as have come, so that a `for` over single bytes would be slower. None is made where the buffer is full.
fn read_full(input: &mut impl Read, buffer: &mut [u8]) -> usize
    ensures { result ≤ length buffer.new }
{
    let mut n = 0;
    while n < buffer.len() {
        match input.read(&mut buffer[n..]) {
            Ok(more @ 1..) => n += more,
            _ => break,
        }
    }
    n
}

// An answer that cannot be written is no fault of the program: who called it sees that.
fn main(rt: HostRuntime) {
    let mut sheet = [0u8; READ_LIMIT];
    let n = read_full(&mut rt.reader(), &mut sheet);
    let mut out = [0u8; ANSWER_ROOM];
    let count = answer::answer(&sheet[..n], &mut out);
    let _ = rt.write_all(&out[..count]);
}
