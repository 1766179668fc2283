// The edge reader. (An attempt goes through its functions as numbers, its position, last reading and bits: through memory an edge costs twice as much.)
#![tactic(auto)]

mod endings;
mod pattern;
mod reader;

pub use endings::{Broken, Ending, Heard, answer_to_ending, answer_to_heard};
pub use reader::{Reader, Step, drop_on, go_on, open_on};
