// A tray: the records of one format with each value list of a run, back to back.
#![tactic(auto)]

ghost use Rattle.std.specs.Prelude.{◌≡◌, ◌++◌, length, drop};
ghost use Rattle.definition.specs.Options.{options};
ghost use Rattle.definition.specs.Calls.{pack};
ghost use Rattle.definition.specs.Refusals.{answer_of, refusal_number};
ghost use Rattle.definition.specs.Trays.{lists, pack_tray};
ghost use Rattle.laws.proofs.Calls.{Sound};
ghost use Rattle.options.specs.Packed.{table_at};
ghost use Rattle.write_pass.specs.Walks.{summed};
ghost use Rattle.tray.specs.Walks.{bytes_from, tray_from, refused_at, unplaced, placed_of, Told, Fits, RecordFits, put_in, tray_call_of};

use align::sum;
use definition::{Continued, Refusal, State};
use front::settings;
use options::{OptionTable, table};
use plan::place::Place;
use runs::{is_run, list_at};
use values::is_list;
use values::reader::Reader;
use write_pass::pass;

// Why a tray is refused, and the place of the record that is: its list's place from 1, or 0 of what no list is refused for, as the definition
// and the C call have it.
#[derive(Clone, Copy)]
pub struct TrayRefusal {
    pub refusal: Refusal,
    pub place: u64,
}

impl From<Refusal> for TrayRefusal {
    ghost from_gives = { λ r t. t ≡ unplaced r };

    // With no place.
    fn from(refusal: Refusal) -> TrayRefusal {
        TrayRefusal { refusal, place: 0 }
    }
}

// What every record of a tray is laid out by: the option table, what follows the settings at the format's front, and the state there.
// Its methods take it by value: behind a `&` the state would be copied anew for each record.
#[derive(Clone, Copy)]
struct Packing<'a> {
    table: &'a OptionTable,
    format: &'a [u8],
    state: State,
    ghost is_options: { table_at table.now.entries ≡ options },
    ghost sound: { Sound state },
}

// A record's refusal with its place, unless the rest of the run is damaged.
fn refused_at(rest: &[u8], refusal: Refusal, place: u64) -> TrayRefusal
    ensures { placed_of result ≡ refused_at (refusal_number refusal) place (lists rest.now) }
{
    if is_run(rest) {
        TrayRefusal { refusal, place }
    } else {
        TrayRefusal::from(Refusal::DamagedRun)
    }
}

impl Packing<'_> {
    // Every check of a record by itself, and its length.
    fn check_record(self, list: &[u8], out: &mut [u8]) -> Result<Continued, Refusal>
        ensures total { answer_of result ≡ summed (pack self.entry.state self.entry.format.now list.now) }
        ensures bytes { out.new ≡ out.old }
    {
        if !is_list(list) {
            return Err(Refusal::Malformed);
        }
        let place = Place {
            reader: Reader { list, at: 0 },
            state: self.state,
        };
        pass(self.table, self.format, place, out, false)
    }

    // Puts a record that is accepted at the buffer's front, and says its length.
    fn put_record(self, list: &[u8], out: &mut [u8]) -> usize
        requires { RecordFits self.state self.format.now list.now (length out.old) }
        ensures length { result ≡ length (bytes_from self.entry.state self.entry.format.now list.now) }
        ensures bytes { out.new ≡ bytes_from self.entry.state self.entry.format.now list.now ++ drop result out.old }
    {
        let place = Place {
            reader: Reader { list, at: 0 },
            state: self.state,
        };
        let record = pass(self.table, self.format, place, out, true).unwrap();
        record.written as usize
    }

    // Every check, and the tray's length. After a refusal the walk goes on over the lengths alone, since 23 comes before it.
    // This walk may refuse and adds up, the second can't refuse and puts: one function of both would ask in each step which it is.
    fn check_tray(self, run: &[u8], out: &mut [u8]) -> Result<u64, TrayRefusal>
        ensures tray { Told (tray_from self.entry.state self.entry.format.now run.now) result }
        ensures bytes { out.new ≡ out.old }
    {
        let mut left = run;
        // It counts the records, and is in the answer: no index.
        let mut place = 1;
        let mut total = 0;
        while let Some((list, rest)) = list_at(left)? {
            // Not `map_err`: what its closure gave has no name in a proof but Rattle's own, which may change.
            match self.check_record(list, out) {
                Err(refusal) => return Err(refused_at(rest, refusal, place)),
                Ok(record) => total = sum(total, record.written),
            }
            place += 1;
            left = rest;
        }
        Ok(total)
    }

    // Puts the records of a tray that is accepted, one behind the other. The buffer stays whole, and `end` says how much of it is put: what is
    // said of it afterwards is about the whole.
    fn put_tray(self, run: &[u8], out: &mut [u8])
        requires { Fits (tray_from self.state self.format.now run.now) (length out.old) }
        ensures { out.new ≡ put_in out.old (tray_from self.entry.state self.entry.format.now run.now).answer }
    {
        let mut left = run;
        let mut end = 0;
        while let Some((list, rest)) = list_at(left).unwrap() {
            end += self.put_record(list, &mut out[end..]);
            left = rest;
        }
    }
}

// Packs a tray: the records stand at the buffer's front, and no other byte has changed; or a refusal, and none has. The
// settings at the format's front are run once for all records.
pub fn pack_tray(format: &[u8], run: &[u8], out: &mut [u8]) -> Result<u64, TrayRefusal>
    ensures { tray_call_of result out.new ≡ pack_tray format.now run.now out.old }
{
    // Copied once a call: each use of a constant copies it anew.
    let options = table();
    let front = settings(&options, format);
    let packing = Packing {
        table: &options,
        format: &format[front.at..],
        state: front.state,
    };
    let n = packing.check_tray(run, out)?;
    if (out.len() as u64) < n {
        return Err(TrayRefusal::from(Refusal::ResultTooLong));
    }
    packing.put_tray(run, out);
    Ok(n)
}
