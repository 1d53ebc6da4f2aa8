// The items of a format: the cursor that reads one item after the other, what an item does, and a walk over all of them.
#![tactic(auto)]

pub mod cursor;
pub mod item;
pub mod walk;
