// Where a text lies in the data.
ghost use Rattle.std.specs.Prelude.{◌≤◌};

use definition::Offset;

// The offset of a text, and its length, which a value list can hold.
#[derive(Clone, Copy)]
pub struct Span {
    pub start: Offset,
    pub size: u64,
    ghost short: { size ≤ 65535 },
}
