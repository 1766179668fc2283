// The rounds of a link: base pages first, then Next Pages for as long as either end has more to send.
ghost use Rattle.std.specs.Prelude.{◌≡◌};
ghost use Rattle.port_state.specs.Rounds.{is_base, is_first, own_in_round, held_in_round};

use crate::Link;

// Base pages; Next Pages, none of the partner's held yet; Next Pages, one held. In the order of their numbers in a plain record.
#[derive(Clone, Copy, PartialEq, Eq)]
pub enum Round {
    Base,
    First,
    Later,
}

// A function, though `==` says as much: the wrong answers first_round_as_base and no_round_is_base are refused here.
pub fn is_base(round: Round) -> bool
    ensures { result ≡ is_base round }
{
    round == Round::Base
}

// So are later_round_as_first and no_round_is_first.
pub fn is_first(round: Round) -> bool
    ensures { result ≡ is_first round }
{
    round == Round::First
}

// The own page of the round.
pub fn own_in_round(link: Link) -> u64
    ensures { result ≡ own_in_round link }
{
    match link.next.round {
        Round::Base => link.talk.own,
        Round::First | Round::Later => link.next.own,
    }
}

// The held page of the round. At the first round it is still the partner's base page.
pub fn held_in_round(link: Link) -> u64
    ensures { result ≡ held_in_round link }
{
    match link.next.round {
        Round::Base | Round::First => link.talk.held,
        Round::Later => link.next.held,
    }
}
