// The value reader: a list, and the offset of one of its fields, from which on the list is well formed. The list as it is and an offset, and no
// shorter slice: a thin struct of these two is a form that the project names.
ghost use Rattle.std.specs.Prelude.{◌≡◌, true, length, drop};
ghost use Rattle.definition.specs.Lists.{values};
ghost use Rattle.values.specs.Meaning.{FieldRead, is_accepted};

use crate::{Value, float_of, is_number};
use definition::{HEAD, TAG_INTEGER, TAG_OTHER};
use load::get_word;
use words::to_signed;

#[derive(Clone, Copy)]
pub struct Reader<'a> {
    pub list: &'a [u8],
    pub at: usize,
    ghost well_formed: { is_accepted (values (drop at list.now)) ≡ true },
}

impl<'a> Reader<'a> {
    // The field. None at the list's end.
    #[tactic(auto, using(crate::proofs::Contents::at_end))]
    pub fn field(self) -> Option<(Value, usize)>
        ensures { FieldRead self.entry.list.now self.entry.at result }
    {
        if self.at >= self.list.len() {
            return None;
        }
        let tag = self.list[self.at];
        let start = self.at + HEAD;
        if is_number(tag) {
            let b = get_word(&self.list[start..start + 8], true);
            if tag == TAG_INTEGER {
                return Some((Value::Integer(to_signed(b)), start + 8));
            }
            return Some((float_of(b), start + 8));
        }
        if tag == TAG_OTHER {
            return Some((Value::Other, start));
        }
        let n = get_word(&self.list[self.at + 1..start], true) as usize;
        Some((Value::Text(start, n), start + n))
    }
}
