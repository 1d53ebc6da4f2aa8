// Reads the values of a format in data.
#![tactic(auto)]

ghost use Rattle.std.specs.Prelude.{◌≡◌};
ghost use Rattle.definition.specs.Refusals.{answer_of};
ghost use Rattle.definition.specs.Calls.{call, string_unpack};

use align::{at_offset, start as start_state};
use definition::{Refusal, Unpacked};
use fetch::place::Place;
use options::table;
use position::{offset_of, position_of};
use read_pass::pass;

// The values of a format in data from a start position, as a value list at the front of the lent buffer.
pub fn string_unpack(
    format: &[u8],
    data: &[u8],
    start: i64,
    list: &mut [u8],
) -> Result<Unpacked, Refusal>
    ensures { call (answer_of result) list.new ≡ string_unpack format.now «data».now start list.old }
{
    let offset = offset_of(start, data.len())?;
    let place = Place {
        data,
        state: at_offset(start_state(), offset),
    };
    let options = table();
    let total = pass(&options, format, place, list, false)?;
    if (list.len() as u64) < total.length {
        return Err(Refusal::ResultTooLong);
    }
    // It refuses nothing that the first pass accepted.
    pass(&options, format, place, list, true)?;
    Ok(Unpacked {
        length: total.length,
        next: position_of(total.next),
    })
}
