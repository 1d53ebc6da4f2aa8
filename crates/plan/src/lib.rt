// What writing puts for an item, after all of the item's checks.
#![tactic(auto)]

pub mod item;
pub mod place;
pub mod text;
