// The list bound: how long the value list of an accepted reading can be.
#![tactic(auto)]

ghost use Rattle.std.specs.Prelude.{◌≡◌, ◌+◌, min};
ghost use Rattle.definition.specs.Bound as bounds;
ghost use Rattle.definition.specs.Calls.{list_bound};
ghost use Rattle.definition.specs.Ops.{ops};
ghost use Rattle.definition.specs.Refusals.{answer_of};
ghost use Rattle.definition.specs.States as states;
ghost use Rattle.options.specs.Packed.{table_at};
ghost use Rattle.bound.specs.Fields.{bound_aligned, bound_field, bound_pad};

use align::{MAX_LENGTH, alignment, longer, natural, set, start};
use definition::{Field, Op, Refusal, State};
use format::walk::try_fold;
use items::ValidOp;
use options::{OptionTable, table};

// The length of a text's field, of at most 65,535 bytes.
fn text_field(n: u64) -> u64
    ensures { result ≡ 3 + min n 65535 }
{
    3 + n.min(65535)
}

// The most bytes that a field takes in the list.
fn most(f: Field, data_length: u64) -> u64
    ensures { result ≡ bounds.most data_length f }
{
    match f {
        Field::Number(_, _) => 11,
        Field::Chars(n) => text_field(n),
        Field::ZeroEnded | Field::Counted(_) => text_field(data_length),
    }
}

// The sum n on, where an alignment is allowed.
fn bound_aligned(s: State, natural: u64, n: u64) -> Result<State, Refusal>
    ensures { answer_of result ≡ bound_aligned s natural n }
{
    alignment(s, natural)?;
    longer(s, n)
}

// The sum after a field, as the length of a state.
fn bound_field(s: State, f: Field, data_length: u64) -> Result<State, Refusal>
    ensures { answer_of result ≡ bound_field data_length s f }
{
    bound_aligned(s, natural(f), most(f, data_length))
}

// The state as it is, where an alignment is allowed.
fn bound_pad(s: State, n: u64) -> Result<State, Refusal>
    ensures { answer_of result ≡ bound_pad s n }
{
    alignment(s, n)?;
    Ok(s)
}

// The sum after an item. The bound checks alignments and fills nothing up, so it needs none of the facts that an item carries.
#[tactic(auto, unfolding(definition::specs::Bound::bound_op))]
fn bound_op(s: State, item: ValidOp, data_length: u64) -> Result<State, Refusal>
    ensures { answer_of result ≡ bounds.bound_op data_length s item.op }
{
    match item.op {
        Op::Blank => Ok(s),
        Op::Set(x) => Ok(set(s, x)),
        Op::Pad(n, _) => bound_pad(s, n),
        Op::Put(f) => bound_field(s, f, data_length),
    }
}

// The state that a format leads to, by the table that is lent.
fn bounding(table: &OptionTable, format: &[u8], data_length: u64) -> Result<State, Refusal>
    ensures { answer_of result ≡ bounds.bounding data_length states.start (ops (table_at table.now.entries) format.now) }
{
    try_fold(table, format, start(), |s, item| {
        bound_op(s, item, data_length)
    })
}

// The list bound of a format and a data length.
#[tactic(auto, unfolding(definition::specs::Calls::list_bound, definition::specs::Bound::bound))]
pub fn list_bound(format: &[u8], data_length: u64) -> Result<u64, Refusal>
    ensures { answer_of result ≡ list_bound format.now data_length }
{
    if MAX_LENGTH < data_length {
        return Err(Refusal::Malformed);
    }
    // Copied once a call: each use of a constant copies it anew.
    let options = table();
    Ok(bounding(&options, format, data_length)?.length)
}
