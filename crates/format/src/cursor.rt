// Reads the items of a format, one after the other.
ghost use Rattle.std.specs.Prelude.{◌≡◌, drop};
ghost use Rattle.definition.specs.Refusals.{answer_by};
ghost use Rattle.options.specs.Packed.{table_at};
ghost use Rattle.format.specs.Steps.{next_of, next_at};

use crate::item::{Item, ValidItem};
use definition::Refusal;
use operand::operand_at;
use operand::rest::Rest;
use options::OptionTable;

// A place in a format: a cursor by value that hands back the next one, a form that the project names. So it is no `Iterator`, and holds no format.
#[derive(Clone, Copy)]
pub struct Cursor {
    pub at: usize,
}

impl Cursor {
    pub fn new() -> Self
        ensures { result.at ≡ 0 }
    {
        Cursor { at: 0 }
    }

    // The item here and the cursor after it; none at the end of the format.
    pub fn next(
        self,
        table: &OptionTable,
        format: &[u8],
    ) -> Result<Option<(ValidItem, Cursor)>, Refusal>
        ensures { answer_by next_of result ≡ next_at (table_at table.now.entries) self.at (drop self.at format.now) }
    {
        let Some(&b) = format.get(self.at) else {
            return Ok(None);
        };
        let entry = table.entry(b);
        let i = self.at + 1;
        let x = operand_at(table, Rest { format, at: i }, entry)?;
        let item = ValidItem {
            item: Item {
                entry,
                operand: x.value,
            },
        };
        Ok(Some((item, Cursor { at: i + x.taken })))
    }
}
