// A device that a caller keeps as plain numbers and lends, and a run of events from a fresh one.
// `plain` and `reading` are parameters side by side: the record is changed where it lies and the reading stays, so a struct of both would be taken apart at each change.
#![tactic(auto)]

mod lent;
mod quick;
mod runs;

pub use lent::{fresh_record, step_record};
pub use runs::run;
