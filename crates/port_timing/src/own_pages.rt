// The pages that a device makes and orders.
ghost use Rattle.std.specs.Prelude.{◌≡◌};
ghost use Rattle.port_timing.specs.Ticks.{nonce_for, own_page, echoing_page, acknowledging};

use page_word::{Field, get, set};
use port_state::{Link, is_base, own_in_round};

// The nonce of the own page. Where the role is forced, T4 says which, and is not drawn.
#[tactic(auto, using(crate::proofs::AloneT4::t4_alone), unfolding(crate::specs::Ticks::nonce_for))]
fn nonce_for(advertised: u64, draw: u64) -> u64
    ensures { result ≡ nonce_for advertised draw }
{
    if get(advertised, Field::ForcedRole) == 1 {
        return draw % 16 + get(advertised, Field::Nonce) / 16 * 16;
    }
    draw % 32
}

// The own base page. It says that Next Pages are to follow if one is loaded.
#[tactic(auto, using(port_state::proofs::YesOrNo::from_bool_one_if), unfolding(crate::specs::Ticks::own_page))]
pub(crate) fn own_page(advertised: u64, draw: u64, loaded: bool) -> u64
    ensures { result ≡ own_page advertised draw loaded }
{
    let selected = set(advertised, Field::Selector, 1);
    let unechoed = set(selected, Field::EchoedNonce, 0);
    let unanswered = set(unechoed, Field::Ack, 0);
    let announcing = set(unanswered, Field::NextPage, u64::from(loaded));
    set(announcing, Field::Nonce, nonce_for(advertised, draw))
}

// The own base page with Ack and the partner's nonce.
#[tactic(auto, unfolding(crate::specs::Ticks::echoing_page))]
pub(crate) fn echoing_page(own: u64, held: u64) -> u64
    ensures { result ≡ echoing_page own held }
{
    let echoed = set(own, Field::EchoedNonce, get(held, Field::Nonce));
    set(echoed, Field::Ack, 1)
}

// The own page as it is ordered in Ack and Complete. A Next Page has no place for the partner's nonce.
#[tactic(auto, unfolding(crate::specs::Ticks::acknowledging))]
pub(crate) fn acknowledging(link: Link) -> u64
    ensures { result ≡ acknowledging link }
{
    if is_base(link.next.round) {
        return echoing_page(link.talk.own, link.talk.held);
    }
    set(own_in_round(link), Field::Ack, 1)
}
