// The register: what is left, so far, of the data times Z^44 by the generator. A zero stands behind its 44 symbols while it works, so that each place has a next one.
ghost use Rattle.std.specs.Prelude.{◌≡◌, true, [], ◌∷◌, ◌++◌};
ghost use Rattle.frame_polynomial.specs.Frame.{all_symbols};
ghost use Rattle.frame_parity.specs.Taking.{register_of, register_after};
ghost use Rattle.frame_parity.specs.Working.{Ready, Going, rows_of};

use crate::rows::table;

// The register after one more symbol. (The loop is over places since each takes the symbol of the next one.)
fn push(register: [u16; 45], symbol: u16, rows: &[[u16; 44]; 24]) -> [u16; 45]
    requires { Going register symbol rows.now }
    ensures { result ≡ register_after (register_of register) (symbol ∷ []) ++ (0 ∷ []) }
{
    let first = register[0] ^ symbol;
    let low = (first % 8) as usize;
    let middle = (first / 8 % 8) as usize + 8;
    let high = (first / 64 % 8) as usize + 16;
    let mut out = [0u16; 45];
    for at in 0..44 {
        out[at] = register[at + 1] ^ rows[low][at] ^ rows[middle][at] ^ rows[high][at];
    }
    out
}

// The register after a burst of symbols, by the table of rows. The table is given by value, and by a function of its own: as a local of `push_all` it would be filled with zeros
// first, by a function of the C library, which this code is not to need; and made in `take_in` it costs a burst of one symbol twelve instructions more. (A call's result is put into
// an array by a local of its own, or the borrow checker writes no part of the proof.)
fn pushed_by(register: [u16; 45], burst: &[u16], rows: [[u16; 44]; 24]) -> [u16; 45]
    requires { (Ready register) × (all_symbols burst.now ≡ true) × (rows ≡ rows_of) }
    ensures { result ≡ register_after (register_of register) burst.now ++ (0 ∷ []) }
{
    let mut pushed = register;
    for symbol in burst {
        let next = push(pushed, *symbol, &rows);
        pushed = next;
    }
    pushed
}

// The register after a burst of symbols.
pub(crate) fn push_all(register: [u16; 45], burst: &[u16]) -> [u16; 45]
    requires { (Ready register) × (all_symbols burst.now ≡ true) }
    ensures { result ≡ register_after (register_of register) burst.now ++ (0 ∷ []) }
{
    pushed_by(register, burst, table())
}
