// The parity symbols of a frame, of data that come in bursts, in a state that the caller lends. (Registers and rows are arrays: the library has no heap.)
#![tactic(auto)]

mod bursts;
mod finishing;
mod lists;
mod register;
mod rows;

pub use bursts::take_burst;
pub use finishing::finish;
