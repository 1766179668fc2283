// A burst is taken into a lent state: its first 44 entries are the register, the next is the number of symbols taken. Entries behind these are not looked at.
ghost use Rattle.std.specs.Prelude.{◌≡◌, ◌&&◌, [], ◌∷◌, ◌++◌, ◌+◌, ◌≤◌, ◌<◌, length, MatchResult};
ghost use Rattle.answers.specs.Answers.{said_count, put_at};
ghost use Rattle.frame_polynomial.specs.Frame.{all_symbols};
ghost use Rattle.frame_parity.specs.Taking.{register_of, count_of, entries_after, take_of};
ghost use Rattle.frame_parity.specs.Working.{Fits};

use crate::lists::{DATA_SYMBOLS, PARITY_SYMBOLS, STATE_ENTRIES, all_symbols, put_first};
use crate::register::push_all;
use answers::Refusal;

// The number of symbols after a burst, or Count. (A sum past the highest number of its type stays at that one, which is too many too.)
fn count_after(taken: u16, burst: &[u16]) -> Result<usize, Refusal>
    ensures { MatchResult result (λ count. (count ≡ taken + length burst.now) × (count ≤ 406)) (λ refusal. (refusal ≡ Refusal.Count) × (406 < taken + length burst.now)) }
{
    let count = usize::from(taken).saturating_add(burst.len());
    if DATA_SYMBOLS < count {
        return Err(Refusal::Count);
    }
    Ok(count)
}

// Whether a register and a burst are symbols.
fn only_symbols(register: &[u16], burst: &[u16]) -> bool
    ensures { result ≡ (all_symbols register.now && all_symbols burst.now) }
{
    all_symbols(register) && all_symbols(burst)
}

// The register of a state, and a zero behind it.
#[tactic(auto, using(crate::proofs::Answering::front))]
fn register_in(state: &[u16]) -> [u16; 45]
    requires { 45 ≤ length state.now }
    ensures { result ≡ register_of state.now ++ (0 ∷ []) }
{
    let mut register = [0u16; 45];
    put_first(&mut register, &state[..PARITY_SYMBOLS]);
    register
}

// Takes a burst that nothing is wrong with.
#[tactic(auto, using(crate::proofs::Answering::loaded))]
fn take_in(state: &mut [u16], burst: &[u16], count: usize)
    requires { Fits state.old burst.now count }
    ensures { state.new ≡ put_at 0 (entries_after state.old burst.now) state.old }
{
    let mut pushed = push_all(register_in(state), burst);
    pushed[PARITY_SYMBOLS] = count as u16;
    put_first(state, &pushed);
}

// Takes a burst into a lent state: the number of symbols taken so far.
#[tactic(auto, using(crate::proofs::Answering::front, crate::proofs::Answering::take_room, crate::proofs::Answering::take_past, crate::proofs::Answering::take_bad, crate::proofs::Answering::take_good, crate::proofs::Answering::fits))]
pub fn take_burst(state: &mut [u16], burst: &[u16]) -> Result<usize, Refusal>
    ensures says { said_count result ≡ (take_of state.old burst.now).says }
    ensures leaves { state.new ≡ (take_of state.old burst.now).list }
{
    if state.len() < STATE_ENTRIES {
        return Err(Refusal::Room);
    }
    let taken = count_after(state[PARITY_SYMBOLS], burst)?;
    if !only_symbols(&state[..PARITY_SYMBOLS], burst) {
        return Err(Refusal::Symbol);
    }
    take_in(state, burst, taken);
    Ok(taken)
}
