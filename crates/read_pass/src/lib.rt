// A pass over a format: every check, the length of the value list, and where it is asked for, the list.
#![tactic(auto)]

ghost use Rattle.std.specs.Prelude.{◌≡◌, true, cond, [], ◌∷◌, ◌++◌, ◌≤◌, length, drop};
ghost use Rattle.definition.specs.Lists.{list_of};
ghost use Rattle.decode.specs.Readings.{value_of, Inside};
ghost use Rattle.options.specs.Packed.{table_at};
ghost use Rattle.read_pass.specs.Runs.{size_of, Checks, Fits, list_after};

use align::{at_offset, offset_in, sum};
use decode::Reading;
use definition::{Offset, Refusal};
use fetch::Fetched;
use fetch::place::Place;
use fields::{put_float, put_integer, put_text};
use format::cursor::Cursor;
use options::OptionTable;

// The length of the value list and the offset after the last byte read. A length above 2^63-1 says only that the list's is
// above it too.
#[derive(Clone, Copy)]
pub struct Total {
    pub length: u64,
    pub next: Offset,
}

// The length of the field of a value.
fn size_of(r: Reading) -> u64
    ensures { (result ≡ size_of r) × (result ≤ 65538) }
{
    match r {
        Reading::Integer(_) | Reading::Float(_) => 11,
        Reading::Text(text) => 3 + text.size,
    }
}

// Puts the field of a value at the front.
fn put_reading(list: &mut [u8], data: &[u8], r: Reading)
    requires room { size_of r ≤ length list.old }
    requires inside { Inside «data».now r }
    ensures { list.new ≡ list_of (value_of «data».now r ∷ []) ++ drop (size_of r) list.old }
{
    match r {
        Reading::Integer(z) => put_integer(list, z),
        Reading::Float(bits) => put_float(list, bits),
        Reading::Text(text) => {
            let from = text.start.0 as usize;
            put_text(list, &data[from..from + text.size as usize])
        }
    }
}

// Reads a format from a place on. With `put`, reading is accepted, and the list has room for the values. The list is no part of what
// steps take and give, and the flag stands beside it, as in emit.
pub fn pass(
    table: &OptionTable,
    format: &[u8],
    start: Place,
    list: &mut [u8],
    put: bool,
) -> Result<Total, Refusal>
    requires { (put ≡ true → Fits (table_at table.now.entries) format.now start.data.now start.state list.old) }
    ensures total { Checks (table_at table.now.entries) format.now start.entry.data.now start.entry.state result }
    ensures list { list.new ≡ cond put (list_after (table_at table.now.entries) format.now start.entry.data.now start.entry.state list.old) list.old }
{
    let data = start.data;
    let mut c = Cursor::new();
    let mut s = start.state;
    let mut total: u64 = 0;
    while let Some((item, next)) = c.next(table, format)? {
        c = next;
        // Made anew for each item: the loop carries only the state.
        let place = Place { data, state: s };
        match place.step(item.op())? {
            Fetched::Set(t) => s = t,
            Fetched::Read(r, end) => {
                if put {
                    put_reading(&mut list[total as usize..], data, r);
                }
                total = sum(total, size_of(r));
                s = at_offset(s, end);
            }
        }
    }
    Ok(Total {
        length: total,
        next: offset_in(s),
    })
}
