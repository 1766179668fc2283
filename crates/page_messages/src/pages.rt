// What of a heard page tells where a message begins.
ghost use Rattle.std.specs.Prelude.{◌≡◌};
ghost use Rattle.page_messages.specs.Messages.{is_message_page, code_of};

// Whether a page is a message page, by D13 (8192 is 2^13); else it is an unformatted one.
pub(crate) fn is_message_page(page: u64) -> bool
    ensures { result ≡ is_message_page page }
{
    (page / 8192) % 2 == 1
}

// A message page's code: D0-10 (2048 is 2^11).
#[tactic(auto, unfolding(page_word::specs::Fields::part))]
pub(crate) fn code_of(page: u64) -> u64
    ensures { result ≡ code_of page }
{
    page % 2048
}
