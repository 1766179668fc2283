// Writing a page's readings into a lent list.
ghost use Rattle.std.specs.Prelude.{◌≡◌, ◌≤◌, ◌++◌, length, drop};
ghost use Rattle.answers.specs.Answers.{said_count};
ghost use Rattle.page_check_bits.specs.CheckBits.{check_bits};
ghost use Rattle.line_writer.specs.Transitions.{readings, edge_count};
ghost use Rattle.line_writer.specs.Writing.{write_in, write_of};

use crate::transitions::{edge_count, transition_at};
use answers::Refusal;
use line_mode::{LineMode, mode_of};

// Puts the page's readings at the head of a list that has room for them.
fn write_page(tail: &mut [u32], mode: LineMode, word: u64, check: u32, first: u32)
    requires { (check ≡ check_bits word) × (edge_count mode word ≤ length tail.old) }
    ensures { tail.new ≡ readings mode word first ++ drop (edge_count mode word) tail.old }
{
    let spacing = mode.spacing;
    let mut clock = first;
    let mut count = 0;
    for passed in 0..157 {
        // Not every position has an entry, and of what goes through an adapter of iter_mut a proof learns nothing.
        if transition_at(mode, word, check, passed + 1) {
            tail[count] = clock;
            count += 1;
        }
        clock = clock.wrapping_add(spacing);
    }
}

// Writing in a mode whose numbers are known: Wide, Room, or the number of readings.
fn write_in(
    list: &mut [u32],
    place: usize,
    mode: LineMode,
    word: u64,
    first: u32,
) -> Result<usize, Refusal>
    ensures says { said_count result ≡ (write_in mode list.old place word first).says }
    ensures leaves { list.new ≡ (write_in mode list.old place word first).list }
{
    if page_word::WIDE <= word {
        return Err(Refusal::Wide);
    }
    let check = page_check_bits::check_bits(word);
    let count = edge_count(mode, word, check) as usize;
    let length = list.len();
    // Length less place, and never place plus count: a place near 2^64 must not wrap.
    if length < place || length - place < count {
        return Err(Refusal::Room);
    }
    write_page(&mut list[place..], mode, word, check, first);
    Ok(count)
}

// Writes a page's readings into the list from a place on; it answers their number. The mode comes by its number, as C gives it.
#[tactic(auto, unfolding(crate::specs::Writing::write_of))]
pub fn write(
    list: &mut [u32],
    place: usize,
    mode: u32,
    word: u64,
    first: u32,
) -> Result<usize, Refusal>
    ensures says { said_count result ≡ (write_of mode list.old place word first).says }
    ensures leaves { list.new ≡ (write_of mode list.old place word first).list }
{
    let known = mode_of(mode).ok_or(Refusal::Mode)?;
    write_in(list, place, known, word, first)
}
