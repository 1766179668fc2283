// The pages that a device hears, compared with the held one and the own one; and what is due for each that is not refused.
ghost use Rattle.std.specs.Prelude.{◌≡◌};
ghost use Rattle.port_state.specs.Memory.{Meets};
ghost use Rattle.port_hearing.specs.BasePages.{takes, beyond_ack, beyond_ack_and_echo, is_changed, echoes_other};
ghost use Rattle.port_hearing.specs.NextPages.{is_changed_next, repeats_held};

use answers::Answer;
use page_word::{Field, get, set};
use port_state::{Device, Link, Reply, answered, held_in_round, is_first};

// A good page that is not refused: it answers itself, and its last edge is that of the last good page.
pub(crate) fn take(device: Device, word: u64, reading: u32) -> Reply
    ensures { Meets result (takes word reading device) }
{
    answered(Answer::Page(word), device.with_good(reading))
}

// What of a Next Page counts as changed.
#[tactic(auto, unfolding(crate::specs::BasePages::beyond_ack))]
fn beyond_ack(word: u64) -> u64
    ensures { result ≡ beyond_ack word }
{
    set(word, Field::Ack, 0)
}

// What of a base page counts as changed.
#[tactic(auto, unfolding(crate::specs::BasePages::beyond_ack_and_echo))]
fn beyond_ack_and_echo(word: u64) -> u64
    ensures { result ≡ beyond_ack_and_echo word }
{
    beyond_ack(set(word, Field::EchoedNonce, 0))
}

// Whether a base page differs from the held one.
pub(crate) fn is_changed(word: u64, held: u64) -> bool
    ensures { result ≡ is_changed word held }
{
    beyond_ack_and_echo(word) != beyond_ack_and_echo(held)
}

// Whether a Next Page differs from the held page. (01 and its amendments leave out other bits of the two kinds of page.)
pub(crate) fn is_changed_next(word: u64, held: u64) -> bool
    ensures { result ≡ is_changed_next word held }
{
    beyond_ack(word) != beyond_ack(held)
}

// Whether a page is the held one once more. At round first the partner may still be sending its base page, with the echo or without.
#[tactic(auto, unfolding(crate::specs::NextPages::repeats_held))]
pub(crate) fn repeats_held(link: Link, word: u64) -> bool
    ensures { result ≡ repeats_held word link }
{
    if is_first(link.next.round) {
        return beyond_ack_and_echo(word) == beyond_ack_and_echo(held_in_round(link));
    }
    beyond_ack(word) == beyond_ack(held_in_round(link))
}

// Whether a page echoes another nonce than the own one.
pub(crate) fn echoes_other(own: u64, word: u64) -> bool
    ensures { result ≡ echoes_other own word }
{
    get(word, Field::EchoedNonce) != get(own, Field::Nonce)
}
