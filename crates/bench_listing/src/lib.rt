// The bench listing of a capture: from the bytes of the input to the bytes of the text.
#![tactic(auto)]

mod capture;
mod input;
mod text;

pub use input::{MOST_BYTES, MOST_READINGS, list};
