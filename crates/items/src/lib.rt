// What the passes go over: items, fields and sizes that are as options make them. A size is checked where it is read of the format, and
// is a fact of its type from there on. The types stand around `Op` and `Field`, and no facts in those: they are the definitions' own types, which
// hold any size.
#![tactic(auto)]

ghost use Rattle.std.specs.Prelude.{◌≡◌, ◌≤◌, T};
ghost use lib.Dec.{T_prop};
ghost use Rattle.definition.specs.States as states;
ghost use Rattle.laws.proofs.Fields.{valid_field};
ghost use Rattle.laws.proofs.Numbers.{valid_size};
ghost use Rattle.laws.proofs.Ops.{valid_op};

use align::{NaturalAlignment, natural};
use definition::{Field, Kind, Op};

// What an item does, with a size that its option takes.
#[derive(Clone, Copy)]
pub struct ValidOp {
    pub op: Op,
    ghost valid: { T (valid_op op) } by { T_prop (valid_op op) },
}

// A field, with a size that its option takes.
#[derive(Clone, Copy)]
pub struct ValidField {
    pub field: Field,
    ghost valid: { T (valid_field field) } by { T_prop (valid_field field) },
}

// A number's kind, and a size that it can have.
#[derive(Clone, Copy)]
pub struct Number {
    pub kind: Kind,
    pub size: u64,
    ghost valid: { T (valid_size kind size) } by { T_prop (valid_size kind size) },
}

// The size of an integer, or of the length before a text.
#[derive(Clone, Copy)]
pub struct Size {
    pub bytes: u64,
    ghost least: { 1 ≤ bytes },
    ghost most: { bytes ≤ 16 },
}

impl ValidField {
    // Its natural alignment.
    pub fn natural(self) -> NaturalAlignment
        ensures { result.bytes ≡ states.natural self.field }
    {
        NaturalAlignment {
            bytes: natural(self.field),
        }
    }
}
