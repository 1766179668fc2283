// The check bits of a word, bit by bit, and the check call.
ghost use Rattle.std.specs.Prelude.{◌≡◌, ◌≤◌};
ghost use Rattle.answers.specs.Answers.{said_count};
ghost use Rattle.page_word.specs.Word.{bits_of};
ghost use Rattle.polynomials.specs.Binary.{numeral};
ghost use Rattle.page_check_bits.specs.CheckBits.{remainder, check_bits, agrees, checked};

use answers::Refusal;
use page_word::WIDE;

// x^16 + x^15 + x^2 + 1, as bits.
const GENERATOR: u32 = 0x18005;

// What the register holds after the first bits of a number have entered it, lowest first: the remainder of these bits.
fn register_after(bits: u64, count: u32) -> u32
    requires { count ≤ 64 }
    ensures { result ≡ numeral (remainder (bits_of count bits)) }
{
    let mut register: u32 = 0;
    let mut rest = bits;
    for _ in 0..count {
        let bit = (rest % 2) as u32;
        let shifted = (register << 1) ^ (bit << 16);
        register = if shifted < 0x10000 {
            shifted
        } else {
            shifted ^ GENERATOR
        };
        rest /= 2;
    }
    register
}

// The check bits over D0-D47, S15 highest. Bits above D47 are not looked at.
#[tactic(auto, unfolding(crate::specs::CheckBits::check_bits, crate::specs::CheckBits::check_list))]
pub fn check_bits(word: u64) -> u32
    ensures { result ≡ check_bits word }
{
    register_after(word, 48)
}

// Whether 64 bits, the first that came the lowest, are a word and its check bits: they are if, all of them together, they divide.
pub fn bits_agree(bits: u64) -> bool
    ensures { result ≡ agrees bits }
{
    register_after(bits, 64) == 0
}

// The check bits of a word, or Wide.
pub fn check(word: u64) -> Result<u32, Refusal>
    ensures { said_count result ≡ checked word }
{
    if WIDE <= word {
        return Err(Refusal::Wide);
    }
    Ok(check_bits(word))
}
