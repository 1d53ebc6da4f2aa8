// Validity dates: the day number of a date, the date of a day number, and the last day of a pass. From 2000 to 2180 every fourth
// year is a leap year but 2100: days are counted as if it were one too, and those after its February are moved by one.
#![tactic(auto)]

ghost use Rattle.std.specs.Prelude.{◌≡◌, ◌≤◌, ◌<◌, true, cond};
ghost use Rattle.calendar.specs.Calendar.{date, is_leap, month_length, days_before_month, days_before, is_date, date_after, months_on, end_before, in_two_bytes, day_number, date_of, last_day};
ghost use Rattle.calendar.specs.Claims.{number_of};
ghost use Rattle.definition.specs.Refusals.{answer_of};
ghost use Rattle.dates.specs.Fourth.{fourth, days_before_fourth, counted, widened, InYear, Later};

use calendar::Date;
use definition::Refusal;
use words::extent;

// The last day that two bytes hold, 6 June 2179.
const MAX_DAY: u64 = 65535;

// The number of a 29 February 2100.
const NO_DAY: u64 = 36584;

#[tactic(auto, unfolding(calendar::specs::Calendar::is_leap))]
fn is_leap(year: u64) -> bool
    ensures { result ≡ is_leap year }
{
    year % 4 == 0 && (year % 100 != 0 || year % 400 == 0)
}

// The days of a month: the long ones are odd to July, and even from August on. The bounds of a month stand in five contracts, here, at
// days_before_month and months_on, in Later and in InYear: a type for them would be made of a date's month at each call.
#[tactic(auto, using(crate::proofs::Closed::lengths_are), unfolding(calendar::specs::Calendar::month_length))]
fn month_length(year: u64, month: u64) -> u64
    requires { (1 ≤ month) × (month ≤ 12) }
    ensures { result ≡ month_length (is_leap year) month }
{
    if month != 2 {
        return 30 + (month + month / 8) % 2;
    }
    if is_leap(year) { 29 } else { 28 }
}

// Whether there is such a date. Every month has 28 days, so only a later day asks for the month's length. Each test answers by itself:
// joined in one, they would be taken apart again in the proof.
fn is_date(d: Date) -> bool
    ensures { result ≡ is_date d }
{
    if d.day == 0 {
        return false;
    }
    if d.month == 0 {
        return false;
    }
    if 12 < d.month {
        return false;
    }
    if d.day <= 28 {
        return true;
    }
    d.day <= month_length(d.year, d.month)
}

// The days before the year 2000 + y.
#[tactic(auto, using(crate::proofs::Closed::years_are))]
fn days_before_year(y: u64) -> u64
    requires { y ≤ 180 }
    ensures { result ≡ days_before_fourth y }
{
    (1461 * y + 3) / 4
}

// The days before a month of the year 2000 + y, from what they are if February has 30.
fn days_before_month(y: u64, month: u64) -> u64
    requires { (1 ≤ month) × (month ≤ 12) }
    ensures { result ≡ days_before_month (fourth y) month }
{
    let n = (367 * month - 362) / 12;
    if month < 3 {
        return n;
    }
    if y % 4 == 0 { n - 1 } else { n - 2 }
}

// The day number of a date.
fn number(d: Date) -> u64
    requires { (is_date d ≡ true) × (2000 ≤ d.year) × (d.year ≤ 2180) }
    ensures { result ≡ days_before d }
{
    let y = d.year - 2000;
    let n = days_before_year(y) + days_before_month(y, d.month) + (d.day - 1);
    if n < NO_DAY { n } else { n - 1 }
}

// The day r, from 0, of the year 2000 + y, if February has 30 days.
fn widen(y: u64, r: u64) -> u64
    requires { r ≤ 365 }
    ensures { result ≡ widened (fourth y) r }
{
    if y % 4 == 0 {
        if r < 60 { r } else { r + 1 }
    } else if r < 59 {
        r
    } else {
        r + 2
    }
}

// The date on the day r, from 0, of the year 2000 + y.
fn date_in(y: u64, r: u64) -> Date
    requires { (y ≤ 180) × (r < cond (fourth y) 366 365) }
    ensures { InYear y r result }
{
    let n = widen(y, r);
    let month = (12 * n + 373) / 367;
    Date {
        year: 2000 + y,
        month,
        day: n - (367 * month - 362) / 12 + 1,
    }
}

// What a day number is counted as, with a 29 February 2100.
fn count(n: u64) -> u64
    requires { n ≤ 65535 }
    ensures { result ≡ counted n }
{
    if n < NO_DAY { n } else { n + 1 }
}

// The date of a day number.
fn date_after(n: u64) -> Date
    requires { n ≤ 65535 }
    ensures { result ≡ date_after n }
{
    let j = count(n);
    let y = 4 * j / 1461;
    date_in(y, j - days_before_year(y))
}

// The same day some months on.
#[tactic(auto, using(crate::proofs::Passing::in_the_year, crate::proofs::Passing::in_the_next))]
fn months_on(d: Date, months: u64) -> Date
    requires { (1 ≤ d.month) × (d.month ≤ 12) × (d.year ≤ 2179) × (months ≤ 12) }
    ensures { result ≡ months_on months d }
{
    let month = d.month + months;
    if month <= 12 {
        return Date { month, ..d };
    }
    Date {
        year: d.year + 1,
        month: month - 12,
        ..d
    }
}

// The day before a day, or the month's last if it has no such day.
fn end_before(d: Date) -> u64
    requires { Later d }
    ensures { result ≡ end_before d }
{
    let first = number(Date { day: 1, ..d });
    if d.day <= 28 {
        return first + d.day - 2;
    }
    let n = month_length(d.year, d.month);
    if d.day <= n {
        first + d.day - 2
    } else {
        first + n - 1
    }
}

// A day number that two bytes hold, else 25.
fn in_two_bytes(n: u64) -> Result<u64, Refusal>
    ensures { answer_of result ≡ in_two_bytes n }
{
    if n <= MAX_DAY {
        Ok(n)
    } else {
        Err(Refusal::DayTooLarge)
    }
}

// The day number of a date from 2000 on: 24 if there is no such date, 25 if two bytes don't hold it.
#[tactic(auto, using(crate::proofs::Passing::late_year, calendar::proofs::Existence::no_date, calendar::proofs::Calls::number_is))]
fn number_of(d: Date) -> Result<u64, Refusal>
    requires { 2000 ≤ d.year }
    ensures { answer_of result ≡ number_of d }
{
    if !is_date(d) {
        return Err(Refusal::NoSuchDate);
    }
    if 2179 < d.year {
        return Err(Refusal::DayTooLarge);
    }
    in_two_bytes(number(d))
}

// The day number of a date: 24 if there is no such date or its year is before 2000, 25 if two bytes don't hold it.
#[tactic(auto, using(crate::proofs::Signs::year_below, crate::proofs::Signs::month_below, crate::proofs::Signs::day_below))]
pub fn day_number(year: i64, month: i64, day: i64) -> Result<u64, Refusal>
    ensures { answer_of result ≡ day_number year month day }
{
    // Here and in last_day the bounds are above 0, so try_from would be a refusal more beside each test.
    if year < 2000 {
        return Err(Refusal::NoSuchDate);
    }
    if month < 1 {
        return Err(Refusal::NoSuchDate);
    }
    if day < 1 {
        return Err(Refusal::NoSuchDate);
    }
    number_of(Date {
        year: extent(year),
        month: extent(month),
        day: extent(day),
    })
}

// The date of a day number: 24 if it is below 0, 25 if two bytes don't hold it.
pub fn date_of(day: i64) -> Result<Date, Refusal>
    ensures { answer_of result ≡ date_of day }
{
    let Ok(day) = u64::try_from(day) else {
        return Err(Refusal::NoSuchDate);
    };
    let n = in_two_bytes(day)?;
    Ok(date_after(n))
}

// The last day of a pass of 1 to 12 months: 26 if there are fewer or more, then what the first day is refused by, then 25.
pub fn last_day(first: i64, months: i64) -> Result<u64, Refusal>
    ensures { answer_of result ≡ last_day first months }
{
    if months < 1 {
        return Err(Refusal::MonthsOutside);
    }
    let k = extent(months);
    if 12 < k {
        return Err(Refusal::MonthsOutside);
    }
    let date = date_of(first)?;
    in_two_bytes(end_before(months_on(date, k)))
}
