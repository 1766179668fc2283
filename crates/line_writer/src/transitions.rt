// Where a page has its transitions, and how many.
ghost use Rattle.std.specs.Prelude.{◌≡◌, ◌/◌, ◌^◌, ◌<◌, ◌≤◌, length};
ghost use Rattle.page_word.specs.Word.{odd};
ghost use Rattle.page_check_bits.specs.CheckBits.{check_bits};
ghost use Rattle.line_writer.specs.Transitions.{sent_bits, has_transition, transitions};

use line_mode::LineMode;

// Whether the bit at a place is one. (`port_registers::has_bit` is the same expression over another width.)
fn bit_at(number: u64, place: u32) -> bool
    requires { place < 64 }
    ensures { result ≡ odd (number / 2 ^ place) }
{
    (number >> place) % 2 == 1
}

// Whether a page has a transition at a position.
pub(crate) fn transition_at(mode: LineMode, word: u64, check: u32, position: u32) -> bool
    requires { (check ≡ check_bits word) × (position ≤ 157) }
    ensures { result ≡ has_transition mode (sent_bits word) position }
{
    if position <= 26 {
        return bit_at(line_page::start(mode), position);
    }
    if position % 2 == 1 {
        return true;
    }
    if position <= 122 {
        return bit_at(word, (position - 28) / 2);
    }
    if position <= 154 {
        return bit_at(check as u64, (154 - position) / 2);
    }
    false
}

// The number of a page's transitions: the delimiter's, 64 clocks, one for each one bit, and those at 155 and 157.
pub(crate) fn edge_count(mode: LineMode, word: u64, check: u32) -> u32
    requires { (word < 2 ^ 48) × (check ≡ check_bits word) }
    ensures { result ≡ length (transitions mode word) }
{
    let ones = word.count_ones() + check.count_ones();
    if mode.slow { ones + 86 } else { ones + 81 }
}
