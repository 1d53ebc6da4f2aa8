// The lists of a run, each behind its length in two bytes, big-endian.
#![tactic(auto)]

ghost use Rattle.std.specs.Prelude.{◌≡◌};
ghost use Rattle.definition.specs.Trays.{lists};
ghost use Rattle.values.specs.Meaning.{is_accepted};
ghost use Rattle.runs.specs.Entries.{EntryRead};

use definition::Refusal;

// The first list of a run, and the run behind it. None at the run's end.
pub fn list_at(run: &[u8]) -> Result<Option<(&[u8], &[u8])>, Refusal>
    ensures { EntryRead run.now result }
{
    if run.is_empty() {
        return Ok(None);
    }
    let [high, low, behind @ ..] = run else {
        return Err(Refusal::DamagedRun);
    };
    let n = usize::from(u16::from_be_bytes([*high, *low]));
    Ok(Some(behind.split_at_checked(n).ok_or(Refusal::DamagedRun)?))
}

// Whether the lengths of a run end at its last byte.
pub fn is_run(run: &[u8]) -> bool
    ensures { result ≡ is_accepted (lists run.now) }
{
    let mut left = run;
    while let Ok(entry) = list_at(left) {
        let Some((_, rest)) = entry else {
            return true;
        };
        left = rest;
    }
    false
}
