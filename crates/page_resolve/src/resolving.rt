// The resolve call.
ghost use Rattle.std.specs.Prelude.{◌≡◌};
ghost use Rattle.answers.specs.Answers.{said, settled_on};
ghost use Rattle.page_resolve.specs.Rates.{rate_order};
ghost use Rattle.page_resolve.specs.Resolving.{settled_by, resolution_of, said_of};

use crate::rates::first_common;
use crate::roles::{Role, own_role};
use answers::{Answer, Refusal};
use page_word::{WIDE, has_other_selector, is_tie};

// The number n of the ability An, and whether the own side is master: the answer carries yes or no to C, and Role is what two words ask for.
#[derive(Clone, Copy)]
pub struct Settled {
    pub ability: u8,
    pub master: bool,
}

// What two words come to.
pub type Resolution = Result<Settled, Refusal>;

impl From<Settled> for Answer {
    fn from(settled: Settled) -> Answer
        ensures { said result ≡ settled_on settled.ability settled.master }
    {
        Answer::Settled {
            ability: settled.ability,
            master: settled.master,
        }
    }
}

// The same as an answer. (Of the body of `line_mode::answer_to_judging`: each is an equality with a definition of its own, and one for both could say only what a bound says. A function, since neither Result nor Answer is a type of this crate, which an impl of From needs.)
pub fn answer_to(resolution: Resolution) -> Answer
    ensures { said result ≡ said_of resolution }
{
    match resolution {
        Ok(settled) => Answer::from(settled),
        Err(refusal) => Answer::Refused(refusal),
    }
}

// The numbers of the abilities, the preferred first.
const RATE_ORDER: [u8; 9] = [6, 5, 4, 3, 2, 0, 1, 9, 22];

// None before Roles.
fn settle(rate: Option<u8>, role: Option<Role>) -> Resolution
    ensures { result ≡ settled_by rate role }
{
    let ability = rate.ok_or(Refusal::None)?;
    let role = role.ok_or(Refusal::Roles)?;
    Ok(Settled {
        ability,
        master: matches!(role, Role::Master),
    })
}

// What two words come to, with the abilities of an ordered list.
#[tactic(auto, unfolding(crate::specs::Resolving::resolution_of))]
fn resolve_by(order: &[u8], own: u64, partner: u64) -> Resolution
    ensures { result ≡ resolution_of order.now own partner }
{
    if WIDE <= own || WIDE <= partner {
        return Err(Refusal::Wide);
    }
    if has_other_selector(own) || has_other_selector(partner) {
        return Err(Refusal::Selector);
    }
    if is_tie(own, partner) {
        return Err(Refusal::Tie);
    }
    settle(first_common(order, own, partner), own_role(own, partner))
}

// What two words come to.
pub fn resolve(own: u64, partner: u64) -> Resolution
    ensures { result ≡ resolution_of rate_order own partner }
{
    // A constant array is laid out anew at every use: once here.
    let order = RATE_ORDER;
    resolve_by(&order, own, partner)
}
