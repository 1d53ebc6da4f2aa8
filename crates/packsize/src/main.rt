// Reads a format from standard input, up to a line feed or the end, and prints its size or its refusal.
#![tactic(auto)]

use line::{answer_to, is_settled};
use std::io;
use std::io::Read;

// Reads until what follows can't change the answer, the input ends or a read fails; what was read. A read takes what there is, so how far
// the buffer is filled is counted, and the loop has no range to go over.
// Not conformance's read_full: this one ends where an answer stands, and where a read fails.
fn read_line<'b>(reader: &mut impl Read, input: &'b mut [u8]) -> &'b [u8] {
    let mut n = 0;
    while !is_settled(&input[..n]) {
        match reader.read(&mut input[n..]) {
            Ok(0) | Err(_) => break,
            Ok(more) => n += more,
        }
    }
    &input[..n]
}

fn main(rt: HostRuntime) -> io::Result<()> {
    // One byte more than the longest format, so that a full buffer is settled; of fixed size, since nothing is allocated.
    let mut input = [0u8; 4097];
    print!(rt; "{}", answer_to(read_line(&mut rt.stdin(), &mut input)))
}
