// The 48-bit page: its fields, its thirds as registers have them, and what of a Next Page a device looks at.
#![tactic(auto)]

mod fields;
mod next_pages;
mod thirds;

pub use fields::{Field, WIDE, get, has_other_selector, is_tie, set};
pub use next_pages::{NULL_MESSAGE, next_after, same_toggle, sets_next_page};
pub use thirds::{Third, third_of, with_third};
