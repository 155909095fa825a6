// Recorded traces as bytes, written: started, appended to and extended.
// What each function means stands in the crate `format`.
#![tactic(auto)]

mod storing;
mod words;
mod writing;

pub use writing::{append, extend, start};
