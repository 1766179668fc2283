// The line: a page's transitions, writing a page. (A word goes with its check bits, as a premise of three private functions: a struct of both would have one user, `write_in`. Word and first reading are what the call takes.)
#![tactic(auto)]

mod transitions;
mod writer;

pub use writer::write;
