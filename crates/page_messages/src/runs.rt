// Reading a run: what is refused, and room for the messages.
ghost use Rattle.std.specs.Prelude.{◌≡◌, true, ◌≤◌, ◌<◌, length, get_or, if◌then◌else◌};
ghost use Rattle.answers.specs.Answers.{said_count};
ghost use Rattle.page_messages.specs.Messages.{is_message_page, messages_in};
ghost use Rattle.page_messages.specs.Telling.{any_wide, telling_of, messages_of};

use crate::pages::is_message_page;
use crate::readers::read_message;
use answers::Refusal;

// The most pages that a run has.
const MOST_PAGES: usize = 64;

// Looks at all pages once: the number of messages, since each message page begins one; or Wide, if a page is no word. No test leaves the loop, so that the compiler can take
// several pages in a turn.
#[tactic(auto, using(crate::proofs::Looking::one_counted, crate::proofs::Looking::one_wide, crate::proofs::Looking::no_message_left, crate::proofs::Looking::all_found, crate::proofs::Looking::at_most))]
fn look_at_all(pages: &[u64]) -> Result<usize, Refusal>
    requires { length pages.now ≤ 64 }
    ensures { result ≡ (if any_wide pages.now then Err Refusal.Wide else Ok (length (messages_in pages.now))) }
{
    let mut count: usize = 0;
    let mut wide = false;
    for page in pages {
        count += usize::from(is_message_page(*page));
        wide |= page_word::WIDE <= *page;
    }
    if wide { Err(Refusal::Wide) } else { Ok(count) }
}

// Tells the messages of a run that begins with one, if there is room for them.
#[tactic(auto, using(crate::proofs::Looking::at_most, crate::proofs::Answering::no_room, crate::proofs::Answering::told))]
fn tell_messages(pages: &[u64], messages: usize, list: &mut [u64]) -> Result<usize, Refusal>
    requires { (0 < length pages.now) × (length pages.now ≤ 64) × (is_message_page (get_or pages.now 0 0) ≡ true) × (messages ≡ length (messages_in pages.now)) }
    ensures says { said_count result ≡ (telling_of pages.now list.old).says }
    ensures leaves { list.new ≡ (telling_of pages.now list.old).list }
{
    if list.len() < 3 * messages {
        return Err(Refusal::Room);
    }
    read_message(pages, 0, list, 0);
    Ok(messages)
}

// Reads a run: the list gets three cells for each message, its code, its first place and the number of its unformatted pages.
#[tactic(auto, using(crate::proofs::Answering::too_long, crate::proofs::Answering::wide, crate::proofs::Answering::empty, crate::proofs::Answering::stray, crate::proofs::Answering::begun))]
pub fn messages(pages: &[u64], list: &mut [u64]) -> Result<usize, Refusal>
    ensures says { said_count result ≡ (messages_of pages.now list.old).says }
    ensures leaves { list.new ≡ (messages_of pages.now list.old).list }
{
    if MOST_PAGES < pages.len() {
        return Err(Refusal::Length);
    }
    let messages = look_at_all(pages)?;
    match pages {
        [] => Ok(0),
        [first, ..] if is_message_page(*first) => tell_messages(pages, messages, list),
        _ => Err(Refusal::Run),
    }
}
