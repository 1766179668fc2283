// A head's message run: which messages a row of heard pages is made of. (The pages and the list go side by side: the one is read, the other written.)
#![tactic(auto)]

mod pages;
mod readers;
mod runs;

pub use runs::messages;
