// The end of a frame: the register of a lent state is given as the parity symbols.
ghost use Rattle.std.specs.Prelude.{◌≡◌};
ghost use Rattle.answers.specs.Answers.{said_count};
ghost use Rattle.frame_parity.specs.Taking.{finish_of};

use crate::lists::{DATA_SYMBOLS, PARITY_SYMBOLS, STATE_ENTRIES, all_symbols, put_first};
use answers::Refusal;

// Gives the parity symbols of a state that has taken all data of a frame.
#[tactic(auto, using(crate::proofs::Answering::front, crate::proofs::Answering::finish_no_state, crate::proofs::Answering::finish_no_room, crate::proofs::Answering::finish_count, crate::proofs::Answering::finish_bad, crate::proofs::Answering::finish_good))]
pub fn finish(state: &[u16], parity: &mut [u16]) -> Result<usize, Refusal>
    ensures says { said_count result ≡ (finish_of state.now parity.old).says }
    ensures leaves { parity.new ≡ (finish_of state.now parity.old).list }
{
    if state.len() < STATE_ENTRIES || parity.len() < PARITY_SYMBOLS {
        return Err(Refusal::Room);
    }
    if usize::from(state[PARITY_SYMBOLS]) != DATA_SYMBOLS {
        return Err(Refusal::Count);
    }
    let register = &state[..PARITY_SYMBOLS];
    if !all_symbols(register) {
        return Err(Refusal::Symbol);
    }
    put_first(parity, register);
    Ok(PARITY_SYMBOLS)
}
