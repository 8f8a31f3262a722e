// Two-time functions over slices (document 01): where an entry stands, the checks that every call asks, and what is summed over times.
#![tactic(auto)]

pub mod capacity;
pub mod checks;
pub mod layout;
pub mod sums;
