// Reading captures: the first attempt from a place on, and where the next one opens. (A tail goes with its place, and the bound of both with them: by the named form of 01 the reader is
// handed the capture from that place on. The loops go by index, since the place of an edge is what they answer.)
#![tactic(auto)]

mod captures;

pub use captures::{Attempt, ReadOutcome, answer_to_read, read};
