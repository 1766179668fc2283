// From the bytes of the input to the bytes of the listing.
ghost use Rattle.std.specs.Prelude.{◌≡◌, ◌+◌, ◌<◌, ◌≤◌, length, drop};
ghost use Rattle.answers.specs.Answers.{said_count, put_at};
ghost use Rattle.bench_listing.specs.Listing.{given_in, given, readings_of, listing, listed_readings};
ghost use Rattle.bench_listing.specs.Calls.{Puts, listed};

use crate::capture::put_capture;
use crate::text::Text;
use answers::Refusal;
use line_mode::mode_of;

// The most readings of a capture.
pub const MOST_READINGS: usize = 8000;

// Room for every listing: a first and a last line of 20 bytes each, and a line of 23 bytes for each reading.
pub const MOST_BYTES: usize = 2 * 20 + 23 * MOST_READINGS;

// The readings of some bytes, at the head of a list that has room for them.
fn decode(bytes: &[u8], readings: &mut [u32]) -> usize
    requires { (length bytes.now ≤ 32000) × (8000 ≤ length readings.old) }
    ensures contents { readings.new ≡ put_at 0 (readings_of bytes.now) readings.old }
    ensures count { result ≡ length (readings_of bytes.now) }
    ensures few { result ≤ 8000 }
{
    let (fours, _) = bytes.as_chunks::<4>();
    // By an index: a loop over a zip of iter_mut names nothing that it has written, so no invariant can say it.
    for (i, four) in fours.iter().enumerate() {
        readings[i] = u32::from_le_bytes(*four);
    }
    fours.len()
}

// What is given behind a mode that there is: it stands or falls by its length.
fn given_in(mode: u32, bytes: &[u8]) -> Result<u32, Refusal>
    ensures { result ≡ given_in mode bytes.now }
{
    if 4 * MOST_READINGS < bytes.len() {
        return Err(Refusal::Room);
    }
    if bytes.len() % 4 != 0 {
        return Err(Refusal::Odd);
    }
    Ok(mode)
}

// The mode of a capture, or why the input is refused.
fn mode_given(input: &[u8]) -> Result<u32, Refusal>
    ensures { result ≡ given input.now }
{
    let [first, bytes @ ..] = input else {
        return Err(Refusal::Mode);
    };
    let mode = u32::from(*first);
    mode_of(mode).ok_or(Refusal::Mode)?;
    given_in(mode, bytes)
}

// The listing of an input, into lists that hold every one.
fn list_input(input: &[u8], readings: &mut [u32], output: &mut [u8]) -> usize
    requires { (8000 ≤ length readings.old) × (184040 ≤ length output.old) }
    ensures text { Puts output.old 0 (listing input.now) output.new result }
    ensures readings { readings.new ≡ put_at 0 (listed_readings input.now) readings.old }
{
    let mut text = Text::new(output);
    match mode_given(input) {
        Err(refusal) => text.put_refusal(refusal),
        Ok(mode) => {
            let count = decode(&input[1..], readings);
            put_capture(&mut text, mode, &readings[..count]);
        }
    }
    text.length()
}

// Lists the input: the text at the head of the output, its readings at the head of the list of readings. Answers the text's length.
#[tactic(auto, unfolding(crate::specs::Calls::listed))]
pub fn list(input: &[u8], readings: &mut [u32], output: &mut [u8]) -> Result<usize, Refusal>
    ensures says { said_count result ≡ (listed input.now readings.old output.old).says }
    ensures readings { readings.new ≡ (listed input.now readings.old output.old).readings }
    ensures output { output.new ≡ (listed input.now readings.old output.old).output }
{
    if readings.len() < MOST_READINGS || output.len() < MOST_BYTES {
        return Err(Refusal::Room);
    }
    Ok(list_input(input, readings, output))
}
