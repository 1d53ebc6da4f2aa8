// A date of the Gregorian calendar. The definitions of document 02, Two, are in specs/, with what is claimed of them.
#![tactic(auto)]

ghost use Rattle.calendar.specs.Claims.{Undone, Counted, Ends, Checks};
ghost use Rattle.calendar.specs.Examples.{Examples};
ghost use Rattle.calendar.specs.Premises.{Needed};

// Months and days count from 1.
#[derive(Clone, Copy)]
pub struct Date {
    pub year: u64,
    pub month: u64,
    pub day: u64,
}

// The claims, about the definitions that the contracts of the calls name.
pub fn claims()
    ensures { Undone × Counted × Ends × Checks }
{}

// Worked dates, and an example for each premise of the claims.
pub fn examples()
    ensures { Examples × Needed }
{}
