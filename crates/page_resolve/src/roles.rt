// Who is master.
ghost use Rattle.std.specs.Prelude.{◌≡◌};
ghost use Rattle.page_resolve.specs.Roles.{is_forced, has_t4, master_if, both_forced, role_of};

use page_word::Field;

// What one side of a link is to the other.
#[derive(Drop)]
pub(crate) enum Role {
    Master,
    Slave,
}

// M/S.
fn is_forced(word: u64) -> bool
    ensures { result ≡ is_forced word }
{
    page_word::get(word, Field::ForcedRole) == 1
}

// T4.
fn has_t4(word: u64) -> bool
    ensures { result ≡ has_t4 word }
{
    (page_word::get(word, Field::Nonce) >> 4) % 2 == 1
}

fn master_if(master: bool) -> Role
    ensures { result ≡ master_if master }
{
    if master { Role::Master } else { Role::Slave }
}

// What the own side gets of two that are both forced: none, if they ask for the same.
fn both_forced(own: bool, partner: bool) -> Option<Role>
    ensures { result ≡ both_forced own partner }
{
    if own == partner {
        return None;
    }
    Some(master_if(own))
}

// The own side's role, or none, if the two ask for the same one. T4 counts only where M/S is 1: elsewhere it is a bit of chance.
#[tactic(auto, unfolding(crate::specs::Roles::role_of))]
pub(crate) fn own_role(own: u64, partner: u64) -> Option<Role>
    ensures { result ≡ role_of own partner }
{
    match (is_forced(own), is_forced(partner)) {
        (true, true) => both_forced(has_t4(own), has_t4(partner)),
        (true, false) => Some(master_if(has_t4(own))),
        (false, true) => Some(master_if(!has_t4(partner))),
        (false, false) => Some(master_if(
            page_word::get(partner, Field::Nonce) < page_word::get(own, Field::Nonce),
        )),
    }
}
