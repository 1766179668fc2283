// The two readers of a run: the reader of a message hands over to the reader of its unformatted pages, which hands back at the next message. They call
// one another, as `Readers` of specs/ has it, and are no loop for that reason; and they end: whenever the first hands over it has read a page, so the number of unread pages falls. The run
// is only read.
ghost use Rattle.std.specs.Prelude.{◌≡◌, true, ◌+◌, ◌*◌, ◌≤◌, ◌<◌, length, drop, get_or, take_while, not};
ghost use Rattle.std.proofs.lemmas.List.Edits.{sets};
ghost use Rattle.page_messages.specs.Messages.{is_message_page, messages_in};
ghost use Rattle.page_messages.specs.Telling.{told_from, cells_of};
ghost use Rattle.page_messages.specs.Readers.{cells_after};

use crate::pages::{code_of, is_message_page};

// How many unformatted pages stand ahead of the first message page.
fn unformatted_ahead(pages: &[u64]) -> usize
    ensures { result ≡ length (take_while (λ page. not (is_message_page page)) pages.now) }
{
    pages
        .iter()
        .take_while(|page| !is_message_page(**page))
        .count()
}

// Reads the message page at a place, tells its code and its place, and hands over to the reader of its unformatted pages.
#[cycle(read_message_read_unformatted)]
pub(crate) fn read_message(pages: &[u64], at: usize, list: &mut [u64], told: usize)
    requires { (at < length pages.now) × (is_message_page (get_or pages.now at 0) ≡ true) × (told + 3 + 3 * length (messages_in (drop (at + 1) pages.now)) ≤ length list.old) }
    ensures { list.new ≡ sets list.old told (cells_of (told_from at (messages_in (drop at pages.now)))) }
{
    list[told] = code_of(pages[at]);
    list[told + 1] = at as u64;
    read_unformatted(pages, at, list, told)
}

// Reads the unformatted pages of the message at a place, tells their number, and hands back at the next message.
#[cycle(read_message_read_unformatted)]
fn read_unformatted(pages: &[u64], first: usize, list: &mut [u64], told: usize)
    requires { (first < length pages.now) × (told + 3 + 3 * length (messages_in (drop (first + 1) pages.now)) ≤ length list.old) }
    ensures { list.new ≡ sets list.old (told + 2) (cells_after first pages.now) }
{
    let count = unformatted_ahead(&pages[first + 1..]);
    list[told + 2] = count as u64;
    let next = first + 1 + count;
    if next < pages.len() {
        read_message(pages, next, list, told + 3)
    }
}
