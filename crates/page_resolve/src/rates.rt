// The first ability of an ordered list that two words have in common.
ghost use Rattle.std.specs.Prelude.{◌≡◌};
ghost use Rattle.page_resolve.specs.Rates.{has_ability, common_of, first_of};

use page_word::Field;

// A27 would be the first ability past the field: no number from there on is shifted by.
const PAST: u8 = 27;

// Whether a word has an ability, of any number.
#[tactic(auto, using(crate::proofs::CommonAbilities::none_past), unfolding(crate::specs::Rates::has_ability))]
fn has_ability(word: u64, ability: u8) -> bool
    ensures { result ≡ has_ability word ability }
{
    ability < PAST && (page_word::get(word, Field::Abilities) >> ability) % 2 == 1
}

// The number of the first ability of the list that both words have, if they have one.
pub(crate) fn first_common(order: &[u8], own: u64, partner: u64) -> Option<u8>
    ensures { result ≡ first_of (common_of order.now own partner) }
{
    // By find over what iter and copied hand out the proof doesn't close.
    for &ability in order {
        if has_ability(own, ability) && has_ability(partner, ability) {
            return Some(ability);
        }
    }
    None
}
