// "An offset counts from 0, a position from 1": the one place where the two are converted, and the sums over offsets.
#![tactic(auto)]

ghost use Rattle.std.specs.Prelude.{◌≡◌, ◌+◌, ◌-◌, ◌≤◌, ◌<◌, ◌^◌};
ghost use Rattle.definition.specs.Reading.{offset_of, position_of};
ghost use Rattle.definition.specs.Refusals.{answer_of};

use definition::{Offset, Position, Refusal};
use words::extent;

// The offset of a start in data of so many bytes: 1..length+1 from the front, -length..-1 from the end.
pub fn offset_of(start: i64, length: usize) -> Result<Offset, Refusal>
    ensures { answer_of result ≡ offset_of start length }
{
    let n = extent(start);
    // A usize has at most 64 bits, but std has no `From` for it.
    let len = length as u64;
    if start < 0 {
        if n < len {
            Ok(Offset(len - n - 1))
        } else {
            Err(Refusal::StartOutside)
        }
    } else if n == 0 {
        Err(Refusal::StartOutside)
    } else if n - 1 <= len {
        Ok(Offset(n - 1))
    } else {
        Err(Refusal::StartOutside)
    }
}

// The position of an offset.
pub fn position_of(offset: Offset) -> Position
    requires { offset.0 < 2 ^ 64 - 1 }
    ensures { result ≡ position_of offset }
{
    Position(offset.0 + 1)
}

// The offset n bytes on.
pub fn further(o: Offset, n: u64) -> Offset
    requires { o.0 + n < 2 ^ 64 }
    ensures { result.0 ≡ o.0 + n }
{
    Offset(o.0 + n)
}

// How many bytes are left from an offset on, in data of so many.
pub fn left(length: usize, o: Offset) -> u64
    requires { o.0 ≤ length }
    ensures { result ≡ length - o.0 }
{
    length as u64 - o.0
}
