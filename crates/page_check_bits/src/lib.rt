// The check bits of a word: found, compared, and the check call.
#![tactic(auto)]

mod division;

pub use division::{bits_agree, check, check_bits};
