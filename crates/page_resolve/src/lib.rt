// Rate and role: what two words settle on. (`own` and `partner` stand side by side: a pair of them would be taken apart at each test.)
#![tactic(auto)]

mod rates;
mod resolving;
mod roles;

pub use resolving::{Resolution, Settled, answer_to, resolve};
