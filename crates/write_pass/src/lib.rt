// A pass over a format: every check, the totals, and where it is asked for, the record.
#![tactic(auto)]

pub mod progress;

ghost use Rattle.std.specs.Prelude.{◌≡◌, true, cond, length};
ghost use Rattle.definition.specs.Refusals.{answer_of};
ghost use Rattle.options.specs.Packed.{table_at};
ghost use Rattle.write_pass.specs.Walks.{whole, summed, FitsAt, put_at};

use crate::progress::Progress;
use definition::{Continued, Refusal};
use format::cursor::Cursor;
use options::OptionTable;
use plan::place::Place;

// Writes a format from a place. With `put`, writing is accepted, and the buffer has room for the record.
// The flag stands beside the buffer as in emit, since each item lends it on.
pub fn pass(
    table: &OptionTable,
    format: &[u8],
    place: Place,
    out: &mut [u8],
    put: bool,
) -> Result<Continued, Refusal>
    requires { (put ≡ true → FitsAt (length out.old) 0 (whole (table_at table.now.entries) place format.now)) }
    ensures total { answer_of result ≡ summed (whole (table_at table.now.entries) place.entry format.now) }
    ensures bytes { out.new ≡ cond put (put_at out.old 0 (whole (table_at table.now.entries) place.entry format.now)) out.old }
{
    let base = place.state.length;
    let mut c = Cursor::new();
    let mut p = Progress { place, used: 0 };
    // The items run are counted here, where it is known that they are no more than the format's bytes.
    let mut items = 0;
    while let Some((item, next)) = c.next(table, format)? {
        let w = (p.place.state.length - base) as usize;
        c = next;
        if let Some(q) = p.advance(item.op(), out, w, put)? {
            p = q;
            items += 1;
        }
    }
    let s = p.place.state;
    Ok(Continued {
        next: s,
        written: s.length - base,
        used: p.used,
        items,
    })
}
