// Reads standard input.
ghost use Rattle.std.specs.Prelude.{◌<◌, ◌≤◌, length, IfOk};
ghost use Rattle.std.specs.Io.KnownBytes.{Consumes, IsAtEnd};

use std::io;
use std::io::Read;

// Reads until the buffer is full or the input ends; what was read. A read takes what there is, so how far the buffer is filled is counted.
// std's `copy` into a cursor over the buffer says nothing of the bytes.
pub fn read_full<'b, R: Read>(reader: &mut R, out: &'b mut [u8]) -> io::Result<&'b [u8]>
    ensures count { IfOk result (λ s. length s.now ≤ length out.old) }
    ensures bytes { IfOk result (λ s. Consumes (R.remaining reader.old) (R.remaining reader.new) s.now) }
    ensures end { IfOk result (λ s. length s.now < length out.old → IsAtEnd (R.remaining reader.new)) }
{
    let mut n = 0;
    while n < out.len() {
        let more = reader.read(&mut out[n..])?;
        if more == 0 {
            break;
        }
        n += more;
    }
    Ok(&out[..n])
}
