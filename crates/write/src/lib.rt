// Writing: the values of a list, by a format, into a lent buffer.
#![tactic(auto)]

ghost use Rattle.std.specs.Prelude.{◌≡◌};
ghost use Rattle.definition.specs.Calls.{call, pack_continued, string_pack};
ghost use Rattle.definition.specs.Refusals.{answer_of};

use align::{is_sound, start};
use definition::{Continued, Refusal, State};
use options::table;
use plan::place::Place;
use values::is_list;
use values::reader::Reader;
use write_pass::pass;

// Continued writing: the record stands at the buffer's front, and no other byte has changed; or a refusal, and none has.
pub fn pack_continued(
    state: State,
    format: &[u8],
    list: &[u8],
    out: &mut [u8],
) -> Result<Continued, Refusal>
    ensures { call (answer_of result) out.new ≡ pack_continued state format.now list.now out.old }
{
    if !is_sound(state) {
        return Err(Refusal::Malformed);
    }
    if !is_list(list) {
        return Err(Refusal::Malformed);
    }
    let table = table();
    let place = Place {
        reader: Reader { list, at: 0 },
        state,
    };
    let total = pass(&table, format, place, out, false)?;
    if (out.len() as u64) < total.written {
        return Err(Refusal::ResultTooLong);
    }
    pass(&table, format, place, out, true)
}

// Plain writing: the length of the record.
pub fn string_pack(format: &[u8], list: &[u8], out: &mut [u8]) -> Result<u64, Refusal>
    ensures { call (answer_of result) out.new ≡ string_pack format.now list.now out.old }
{
    let total = pack_continued(start(), format, list, out)?;
    Ok(total.written)
}
