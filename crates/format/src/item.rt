// What an item does, by the entry of its byte and its operand.
ghost use Rattle.std.specs.Prelude.{◌≡◌, T};
ghost use lib.Dec.{T_prop};
ghost use Rattle.laws.proofs.Ops.{valid_op};
ghost use Rattle.options.specs.Packed.{plain_at};
ghost use Rattle.format.specs.Ops.{op_for, op_at};

use definition::{Field, Kind, Op, Setting};
use items::ValidOp;
use options::{
    CHARS_END, COUNTED_END, FIXED_END, LIMIT_END, PLAIN_END, SIGNED_END, UNSIGNED_END, kind_of,
};

// An item: the entry of its byte, packed as the table has it (options says why), and its operand.
#[derive(Clone, Copy)]
pub struct Item {
    pub entry: u8,
    pub operand: u64,
}

// An item whose operand is one that its option takes.
#[derive(Clone, Copy)]
pub struct ValidItem {
    pub item: Item,
    ghost valid: { T (valid_op (op_at item.entry item.operand)) } by { T_prop (valid_op (op_at item.entry item.operand)) },
}

// What an option does that has no operand; the numbers are those of the table in options.
#[tactic(auto, unfolding(options::specs::Packed::plain_at))]
fn plain(e: u8) -> Op
    ensures { result ≡ op_for (plain_at e) 0 }
{
    match e {
        112 => Op::Blank,
        128 => Op::Set(Setting::Order(false)),
        144 => Op::Set(Setting::Order(true)),
        160 => Op::Pad(1, 1),
        _ => Op::Put(Field::ZeroEnded),
    }
}

// What the option with the packed entry e does, with the operand n.
pub fn op_of(e: u8, n: u64) -> Op
    ensures { result ≡ op_at e n }
{
    if e < FIXED_END {
        return Op::Put(Field::Number(kind_of(e), n));
    }
    if e < PLAIN_END {
        return plain(e);
    }
    if e < SIGNED_END {
        return Op::Put(Field::Number(Kind::Signed, n));
    }
    if e < UNSIGNED_END {
        return Op::Put(Field::Number(Kind::Unsigned, n));
    }
    if e < COUNTED_END {
        return Op::Put(Field::Counted(n));
    }
    if e < CHARS_END {
        return Op::Put(Field::Chars(n));
    }
    if e < LIMIT_END {
        return Op::Set(Setting::Limit(n));
    }
    Op::Pad(n, 0)
}

impl Item {
    // What the item does.
    pub fn op(self) -> Op
        ensures { result ≡ op_at self.entry self.operand }
    {
        op_of(self.entry, self.operand)
    }
}

impl ValidItem {
    // What the item does.
    pub fn op(self) -> ValidOp
        ensures { result.op ≡ op_at self.item.entry self.item.operand }
    {
        ValidOp { op: self.item.op() }
    }
}
