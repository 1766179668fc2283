// A word as three registers of 16 bits: D15-0, D31-16, D47-32.
ghost use Rattle.std.specs.Prelude.{◌≡◌};
ghost use Rattle.page_word.specs.Thirds.{third_of, with_third};

use crate::fields::with_part;

// One of the three.
#[derive(Clone, Copy)]
pub enum Third {
    Low,
    Middle,
    High,
}

// The value of one of a word's registers.
#[tactic(auto, unfolding(crate::specs::Fields::part))]
pub fn third_of(word: u64, third: Third) -> u16
    ensures { result ≡ third_of third word }
{
    match third {
        Third::Low => (word % 65536) as u16,
        Third::Middle => (word / 65536 % 65536) as u16,
        Third::High => (word / 4294967296 % 65536) as u16,
    }
}

// The word with one of its registers written.
pub fn with_third(word: u64, third: Third, value: u16) -> u64
    ensures { result ≡ with_third third value word }
{
    match third {
        Third::Low => with_part(word, u64::from(value), 0, 16),
        Third::Middle => with_part(word, u64::from(value), 16, 16),
        Third::High => with_part(word, u64::from(value), 32, 16),
    }
}
