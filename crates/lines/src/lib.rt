// Text by lines, fields and numbers.
#![tactic(auto)]

pub mod reading;
pub mod writing;
