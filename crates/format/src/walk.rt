// A walk over the items of a format.
ghost use Rattle.std.specs.Prelude.{◌≡◌};
ghost use Rattle.definition.specs.Ops.{ops};
ghost use Rattle.options.specs.Packed.{table_at};
ghost use Rattle.format.specs.Walks.{Folded};

use crate::cursor::Cursor;
use definition::Refusal;
use items::ValidOp;
use options::OptionTable;

// The state to which a step leads from a state, item by item; or the first refusal, of an item or of the step.
pub fn try_fold<S: Drop, F: Fn(S, ValidOp) -> Result<S, Refusal>>(
    table: &OptionTable,
    format: &[u8],
    from: S,
    step: F,
) -> Result<S, Refusal>
    requires { F.IsAlwaysCallable step }
    ensures { Folded (F.post step) from (ops (table_at table.now.entries) format.now) result }
{
    let mut c = Cursor::new();
    let mut s = from;
    while let Some((item, next)) = c.next(table, format)? {
        s = step(s, item.op())?;
        c = next;
    }
    Ok(s)
}
