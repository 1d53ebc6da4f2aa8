// Where a value is read.
ghost use Rattle.std.specs.Prelude.{◌≡◌, ◌≤◌, length};

use definition::{Offset, Refusal};
use position::{further, left};

// The data, and an offset in them.
#[derive(Clone, Copy)]
pub struct Rest<'a> {
    pub data: &'a [u8],
    pub at: Offset,
    ghost within: { at.0 ≤ length «data».now },
}

impl<'a> Rest<'a> {
    ghost use Rattle.definition.specs.Refusals.{answer_by};
    ghost use Rattle.decode.specs.Rests.{rest_of, past, split_of, split};

    // The rest behind n bytes: 17.
    #[tactic(auto, unfolding(crate::specs::Rests::past))]
    pub fn past(self, n: u64) -> Result<Rest<'a>, Refusal>
        ensures { answer_by rest_of result ≡ past self.entry.data.now self.entry.at n }
    {
        if left(self.data.len(), self.at) < n {
            return Err(Refusal::DataEnd);
        }
        Ok(Rest {
            data: self.data,
            at: further(self.at, n),
        })
    }

    // The next n bytes, and the rest behind them: 17.
    #[tactic(auto, unfolding(crate::specs::Rests::past, crate::specs::Rests::split))]
    pub fn split(self, n: u64) -> Result<(&'a [u8], Rest<'a>), Refusal>
        ensures { answer_by split_of result ≡ split self.entry.data.now self.entry.at n }
    {
        let behind = self.past(n)?;
        let start = self.at.0 as usize;
        Ok((&self.data[start..start + n as usize], behind))
    }
}
