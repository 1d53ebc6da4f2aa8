// The calls under C names. Each returns 0 and fills its answer, or returns a refusal's number and changes nothing; a tray's place
// is told in both cases.
#![tactic(auto)]

ghost use Rattle.std.specs.Prelude.{◌≡◌};
ghost use Rattle.definition.specs.Answers.{accepted};
ghost use Rattle.definition.specs.Refusals.{answer_of};
ghost use Rattle.definition.specs.Lists.{offset_after};
ghost use Rattle.definition.specs.Calls.{string_packsize, list_bound, string_pack, pack_continued, string_unpack};
ghost use Rattle.definition.specs.Trays.{pack_tray};
ghost use Rattle.lengths.specs.Lengths.{packsize_range};
ghost use Rattle.calendar.specs.Calendar.{day_number, date_of, last_day};
ghost use Rattle.digribbon.specs.Answers.{told, told_with, told_at, word, continued_words, unpacked_words, date_words, range_words, state_of};

use align::state;
use bound::list_bound;
use calendar::Date;
use dates::{date_of, day_number, last_day};
use definition::{Continued, Refusal, Unpacked};
use lengths::Range;
use measure::string_packsize;
use range::packsize_range;
use read::string_unpack;
use tray::pack_tray;
use values::fields_after;
use write::{pack_continued, string_pack};

// ---- the words of an answer: functions and no `From`, since what the words are, and their order, belongs to the C interface

fn word(n: u64) -> [u64; 1]
    ensures { result ≡ word n }
{
    [n]
}

fn continued_words(c: Continued) -> [u64; 6]
    ensures { result ≡ continued_words c }
{
    let s = c.next;
    [
        u64::from(s.big),
        s.limit,
        s.length,
        c.written,
        c.used,
        c.items,
    ]
}

fn unpacked_words(u: Unpacked) -> [u64; 2]
    ensures { result ≡ unpacked_words u }
{
    [u.length, u.next.0]
}

fn range_words(r: Range) -> [u64; 2]
    ensures { result ≡ range_words r }
{
    [r.least, r.greatest]
}

fn date_words(d: Date) -> [u64; 3]
    ensures { result ≡ date_words d }
{
    [d.year, d.month, d.day]
}

// The words of what is accepted in the answer, or a refusal's number.
fn tell<const N: usize>(given: Result<[u64; N], Refusal>, answer: &mut [u64; N]) -> u64
    ensures { (result, answer.new) ≡ told (λ words. words) answer.old (answer_of given.entry) }
{
    match given {
        Ok(words) => {
            *answer = words;
            0
        }
        Err(refusal) => u64::from(refusal.number()),
    }
}

// ---- the calls

// Measuring.
#[unsafe(no_mangle)]
pub extern "C" fn digribbon_packsize(format: &[u8], answer: &mut [u64; 1]) -> u64
    ensures { (result, answer.new) ≡ told word answer.old (string_packsize format.now) }
{
    tell(string_packsize(format).map(word), answer)
}

// The list bound.
#[unsafe(no_mangle)]
pub extern "C" fn digribbon_list_bound(
    format: &[u8],
    data_length: u64,
    answer: &mut [u64; 1],
) -> u64
    ensures { (result, answer.new) ≡ told word answer.old (list_bound format.now data_length) }
{
    tell(list_bound(format, data_length).map(word), answer)
}

// The least and the greatest record length.
#[unsafe(no_mangle)]
pub extern "C" fn digribbon_packsize_range(
    format: &[u8],
    pairs: &[u8],
    answer: &mut [u64; 2],
) -> u64
    ensures { (result, answer.new) ≡ told range_words answer.old (packsize_range format.now pairs.now) }
{
    tell(packsize_range(format, pairs).map(range_words), answer)
}

// Writing.
#[unsafe(no_mangle)]
pub extern "C" fn digribbon_pack(
    format: &[u8],
    list: &[u8],
    record: &mut [u8],
    answer: &mut [u64; 1],
) -> u64
    ensures { ((result, answer.new), «record».new) ≡ told_with word answer.old (string_pack format.now list.now «record».old) }
{
    tell(string_pack(format, list, record).map(word), answer)
}

// Continued writing, from a state given by its three numbers.
#[unsafe(no_mangle)]
pub extern "C" fn digribbon_pack_continued(
    order: u64,
    limit: u64,
    length: u64,
    format: &[u8],
    list: &[u8],
    record: &mut [u8],
    answer: &mut [u64; 6],
) -> u64
    ensures { ((result, answer.new), «record».new) ≡ told_with continued_words answer.old (pack_continued (state_of order limit length) format.now list.now «record».old) }
{
    let from = state(order != 0, limit, length);
    let continued = pack_continued(from, format, list, record);
    tell(continued.map(continued_words), answer)
}

// Reading.
#[unsafe(no_mangle)]
pub extern "C" fn digribbon_unpack(
    format: &[u8],
    data: &[u8],
    start: i64,
    list: &mut [u8],
    answer: &mut [u64; 2],
) -> u64
    ensures { ((result, answer.new), list.new) ≡ told_with unpacked_words answer.old (string_unpack format.now «data».now start list.old) }
{
    let unpacked = string_unpack(format, data, start, list);
    tell(unpacked.map(unpacked_words), answer)
}

// A tray, with the place of the record that is refused: two arms, since the place is told in both.
#[unsafe(no_mangle)]
pub extern "C" fn digribbon_pack_tray(
    format: &[u8],
    run: &[u8],
    tray: &mut [u8],
    place: &mut [u64; 1],
    answer: &mut [u64; 1],
) -> u64
    ensures { (((result, answer.new), tray.new), place.new) ≡ told_at answer.old (pack_tray format.now run.now tray.old) }
{
    match pack_tray(format, run, tray) {
        Ok(length) => {
            *place = [0];
            tell(Ok([length]), answer)
        }
        Err(refused) => {
            *place = [refused.place];
            tell(Err(refused.refusal), answer)
        }
    }
}

// Where the list after some fields starts.
#[unsafe(no_mangle)]
pub extern "C" fn digribbon_list_after(list: &[u8], fields: u64, answer: &mut [u64; 1]) -> u64
    ensures { (result, answer.new) ≡ told word answer.old (accepted (offset_after fields list.now)) }
{
    tell(Ok([fields_after(list, fields) as u64]), answer)
}

// The day number of a date.
#[unsafe(no_mangle)]
pub extern "C" fn digribbon_day_number(
    year: i64,
    month: i64,
    day: i64,
    answer: &mut [u64; 1],
) -> u64
    ensures { (result, answer.new) ≡ told word answer.old (day_number year month day) }
{
    tell(day_number(year, month, day).map(word), answer)
}

// The date of a day number: its year, month and day.
#[unsafe(no_mangle)]
pub extern "C" fn digribbon_date(day: i64, answer: &mut [u64; 3]) -> u64
    ensures { (result, answer.new) ≡ told date_words answer.old (date_of day) }
{
    tell(date_of(day).map(date_words), answer)
}

// The last day of a pass, from its first day and its months.
#[unsafe(no_mangle)]
pub extern "C" fn digribbon_last_day(first: i64, months: i64, answer: &mut [u64; 1]) -> u64
    ensures { (result, answer.new) ≡ told word answer.old (last_day first months) }
{
    tell(last_day(first, months).map(word), answer)
}
