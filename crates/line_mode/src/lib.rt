// Clock and gaps: the time between two readings, the two modes, and how a gap is judged.
#![tactic(auto)]

mod clock;
mod modes;

pub use clock::time_between;
pub use modes::{Judgement, LineMode, answer_to_judging, judge, mode_of};
