// Prints digests of what the crate dates answers. The file stdout beside src/ is made by tools/days.py, of Python's datetime.
//
// A line for each year from 1999 to 2180: the year, the day number of its 1 January or `-`, how many of its days have a day number,
// and a digest of the answers of each call:
//   day_number  for the months -1 to 14, and the days -1 to 33 of each
//   date_of     for each day number of the year
//   last_day    for each day number of the year, and -1 to 14 months from it
// The last line has digests of the same calls for every choice of arguments among sixteen numbers (`EDGES`).
#![tactic(auto)]

ghost use Rattle.std.specs.Prelude.{◌≡◌, ◌≤◌, ◌*◌, ◌%◌, ◌^◌, bit_xor};

use calendar::Date;
use dates::{date_of, day_number, last_day};
use definition::Refusal;
use std::io;

// FNV-1a's start and its prime.
const BASIS: u64 = 14695981039346656037;

const PRIME: u64 = 1099511628211;

// The digest with one number more: FNV-1a, of numbers in place of bytes.
fn mixed(h: u64, x: u64) -> u64
    ensures { result ≡ (bit_xor h x * 1099511628211) % 2 ^ 64 }
{
    (h ^ x).wrapping_mul(PRIME)
}

// The digest with one answer more, of its numbers, or of a refusal's as a number above every day's.
fn with<const N: usize>(h: u64, answer: Result<[u64; N], Refusal>) -> u64 {
    match answer {
        Ok(numbers) => numbers.iter().fold(h, |h, x| mixed(h, *x)),
        Err(refusal) => mixed(h, 65536 + u64::from(refusal.number())),
    }
}

// The numbers of an answer, as digribbon has them, which is a static library and lends no function. They have names, since each is
// asked for at more than one place.
fn day_numbers(n: u64) -> [u64; 1] {
    [n]
}

fn date_numbers(d: Date) -> [u64; 3] {
    [d.year, d.month, d.day]
}

// The day i days after another. The sum wraps, since the contract of a day number doesn't bound it.
fn days_on(first: u64, i: u64) -> i64 {
    first.wrapping_add(i).cast_signed()
}

// The answer at the place i of the 560 for the months -1 to 14 of a year, and the days -1 to 33 of each.
fn number_in(year: i64, i: i64) -> Result<u64, Refusal> {
    day_number(year, i / 35 - 1, i % 35 - 1)
}

// How many days of a year have a number.
fn count(year: i64) -> u64
    ensures { result ≤ 560 }
{
    (0..560).filter(|i| number_in(year, *i).is_ok()).count() as u64
}

// The digest of a year's day numbers.
fn number_digest(year: i64) -> u64 {
    (0..560).fold(BASIS, |h, i| {
        with(h, number_in(year, i).map(day_numbers))
    })
}

// The digests of the dates of so many days from a first one, and of the last days of the passes from each.
fn date_digest(first: u64, days: u64) -> u64 {
    (0..days).fold(BASIS, |h, i| {
        with(h, date_of(days_on(first, i)).map(date_numbers))
    })
}

fn last_day_digest(first: u64, days: u64) -> u64 {
    (0..days).fold(BASIS, |h, i| {
        (-1..=14).fold(h, |h, months| {
            with(h, last_day(days_on(first, i), months).map(day_numbers))
        })
    })
}

// Bounds of what the calls take, and numbers outside them: 4294967297 is 1 in its lowest 32 bits, and -2 with every bit turned.
const EDGES: [i64; 16] = [
    i64::MIN,
    -2,
    -1,
    0,
    1,
    2,
    12,
    13,
    29,
    30,
    2100,
    2300,
    2400,
    65536,
    4294967297,
    i64::MAX,
];

// Prints the day number of a year's first day, if it has one, and answers it.
fn print_first(rt: &impl Print, year: i64) -> io::Result<u64> {
    match day_number(year, 1, 1) {
        Ok(n) => {
            print!(rt; " {n}")?;
            Ok(n)
        }
        Err(_) => {
            print!(rt; " -")?;
            Ok(0)
        }
    }
}

// Prints the digests of the three calls, and the line's end.
fn print_digests(rt: &impl Print, [numbers, dates, last_days]: [u64; 3]) -> io::Result<()> {
    println!(rt; " {numbers:016x} {dates:016x} {last_days:016x}")
}

fn print_year(rt: &impl Print, year: i64) -> io::Result<()> {
    print!(rt; "{year}")?;
    let first = print_first(rt, year)?;
    let days = count(year);
    print!(rt; " {days}")?;
    print_digests(
        rt,
        [
            number_digest(year),
            date_digest(first, days),
            last_day_digest(first, days),
        ],
    )
}

// The digest with one number more for each edge, taken in by a step.
fn over_edges<F: Fn(u64, i64) -> u64>(h: u64, step: F) -> u64
    requires { F.IsAlwaysCallable step }
{
    EDGES.iter().fold(h, |h, edge| step(h, *edge))
}

fn print_edges(rt: &impl Print) -> io::Result<()> {
    print!(rt; "edges")?;
    let numbers = over_edges(BASIS, |h, year| {
        over_edges(h, |h, month| {
            over_edges(h, |h, day| {
                with(h, day_number(year, month, day).map(day_numbers))
            })
        })
    });
    let dates = over_edges(BASIS, |h, day| with(h, date_of(day).map(date_numbers)));
    let last_days = over_edges(BASIS, |h, first| {
        over_edges(h, |h, months| {
            with(h, last_day(first, months).map(day_numbers))
        })
    });
    print_digests(rt, [numbers, dates, last_days])
}

fn main(rt: HostRuntime) -> io::Result<()> {
    for year in 1999..=2180 {
        print_year(&rt, year)?;
    }
    print_edges(&rt)
}
