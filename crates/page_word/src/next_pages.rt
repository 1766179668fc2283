// What of a Next Page matters to a device: the toggle, and whether more pages follow.
ghost use Rattle.std.specs.Prelude.{◌≡◌};
ghost use Rattle.page_word.specs.NextPages.{sets_next_page, same_toggle, inverse_toggle, next_after};

use crate::fields::{Field, get, part, set, with_part};

// The Null message, of an end that has nothing to say: code 1, D13 one.
pub const NULL_MESSAGE: u64 = 0x2001;

// Whether a page says that a Next Page is to follow.
pub fn sets_next_page(word: u64) -> bool
    ensures { result ≡ sets_next_page word }
{
    get(word, Field::NextPage) == 1
}

// Whether two pages have the same toggle.
pub fn same_toggle(word: u64, other: u64) -> bool
    ensures { result ≡ same_toggle word other }
{
    part(word, 11, 1) == part(other, 11, 1)
}

// The toggle of whatever follows a page.
fn inverse_toggle(before: u64) -> u64
    ensures { result ≡ inverse_toggle before }
{
    if part(before, 11, 1) == 1 { 0 } else { 1 }
}

// A word as the Next Page that follows another page.
#[tactic(auto, unfolding(crate::specs::NextPages::next_after))]
pub fn next_after(before: u64, word: u64) -> u64
    ensures { result ≡ next_after before word }
{
    let unanswered = set(word, Field::Ack, 0);
    with_part(unanswered, inverse_toggle(before), 11, 1)
}
