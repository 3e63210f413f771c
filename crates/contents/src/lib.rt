// The table of contents of a day index: its rows, and what a lawful day has under a name.
#![tactic(auto)]

mod lawful;
mod placed;
pub mod rows;

pub use lawful::LawfulDay;
pub use placed::Contents;
pub use rows::Row;
