// The edge reader: a reader by value, an edge in, what it says and the next reader out.
ghost use Rattle.std.specs.Prelude.{◌≡◌, ◌+◌, ◌/◌, ◌^◌, ◌≤◌, if◌then◌else◌};
ghost use Rattle.answers.specs.Choices.{◌=?◌};
ghost use Rattle.line_mode.specs.declared.modes.Judgement.TheVariants.{Positions};
ghost use Rattle.line_reader.specs.declared.reader.Reader.TheVariants.{Open, Dropping};
ghost use Rattle.line_reader.specs.Reading.{step, opening, page_end, goes_on, edge_of};

use crate::endings::{Broken, Heard};
use crate::pattern::spans;
use line_mode::{Judgement, LineMode, time_between};

// What a reader holds between two edges: nothing yet; an open attempt with the position and reading of its last edge and the bits so
// far, the newest highest; or, after an attempt has ended, the last edge's reading.
#[derive(Clone, Copy)]
pub enum Reader {
    Fresh,
    Open { at: u32, last: u32, bits: u64 },
    Dropping { last: u32 },
}

// What an edge brings.
#[derive(Drop)]
pub struct Step {
    pub heard: Heard,
    pub reader: Reader,
}

// The edge opens an attempt.
#[inline(always)]
fn opened(heard: Heard, reading: u32) -> Step
    ensures { result ≡ step heard (Open 1 reading 0) }
{
    Step {
        heard,
        reader: Reader::Open {
            at: 1,
            last: reading,
            bits: 0,
        },
    }
}

// Edges are dropped from here on.
#[inline(always)]
fn dropped(heard: Heard, reading: u32) -> Step
    ensures { result ≡ step heard (Dropping reading) }
{
    Step {
        heard,
        reader: Reader::Dropping { last: reading },
    }
}

// The attempt goes on from a position.
#[inline(always)]
fn moved(at: u32, bits: u64, reading: u32) -> Step
    ensures { result ≡ step None (Open at reading bits) }
{
    Step {
        heard: None,
        reader: Reader::Open {
            at,
            last: reading,
            bits,
        },
    }
}

// The edge at 157.
fn whole(bits: u64, reading: u32) -> Step
    ensures { result ≡ step (Some (page_end bits)) (Dropping reading) }
{
    let ending = if page_check_bits::bits_agree(bits) {
        Ok(bits % page_word::WIDE)
    } else {
        Err(Broken::Check)
    };
    dropped(Some(ending), reading)
}

// The bits with one more, after a clock. The newest bit is the highest, so after 64 the first is the lowest.
#[inline(always)]
fn with_bit(k: u32, bits: u64) -> u64
    ensures { result ≡ bits / 2 + (if k =? 1 then 2 ^ 63 else 0) }
{
    if k == 1 {
        return bits / 2 + 0x8000000000000000;
    }
    bits / 2
}

// An edge so many positions after the last one of an attempt: in the delimiter, among clocks and bits, or at the end.
#[inline(always)]
fn step_on(mode: LineMode, at: u32, k: u32, bits: u64, reading: u32) -> Step
    requires { (1 ≤ k) × (k ≤ 4) }
    ensures { result ≡ goes_on mode at bits reading (Positions k) }
{
    match at {
        0..=26 if spans(line_page::start(mode), at, k) => moved(at + k, bits, reading),
        27..=154 => match at % 2 {
            0 if k == 1 => moved(at + k, bits, reading),
            1 if k <= 2 => moved(at + k, with_bit(k, bits), reading),
            _ => dropped(Some(Err(Broken::Gap)), reading),
        },
        // A pattern 155 would be tried by the compiler ahead of the ranges, at each edge.
        _ if at == 155 && k == 2 => whole(bits, reading),
        _ => dropped(Some(Err(Broken::Gap)), reading),
    }
}

// A further edge of an attempt. Captures and devices share this body, and it is laid into both their loops: through memory an edge costs twice as much.
#[tactic(auto, unfolding(crate::specs::Reading::edge_of, crate::specs::Reading::goes_on))]
#[inline(always)]
pub fn go_on(mode: LineMode, at: u32, last: u32, bits: u64, reading: u32) -> Step
    ensures { result ≡ edge_of mode (Open at last bits) reading }
{
    match mode.judgement(time_between(reading, last)) {
        Judgement::Positions(k) => step_on(mode, at, k, bits, reading),
        Judgement::Quiet => opened(Some(Err(Broken::Cut)), reading),
        Judgement::Unfit => dropped(Some(Err(Broken::Gap)), reading),
    }
}

// The first edge of a fresh reader.
#[inline(always)]
pub fn open_on(reading: u32) -> Step
    ensures { result ≡ step None (opening reading) }
{
    opened(None, reading)
}

// An edge after an attempt has ended.
#[tactic(auto, unfolding(crate::specs::Reading::edge_of, crate::specs::Reading::drops_on))]
#[inline(always)]
pub fn drop_on(mode: LineMode, last: u32, reading: u32) -> Step
    ensures { result ≡ edge_of mode (Dropping last) reading }
{
    let gap = time_between(reading, last);
    // Below the quiet limit nothing opens, whatever the gap counts as: most edges need not be judged.
    if gap < mode.quiet {
        return dropped(None, reading);
    }
    match mode.judgement(gap) {
        Judgement::Quiet => opened(None, reading),
        _ => dropped(None, reading),
    }
}

impl Reader {
    // Takes an edge at a clock reading.
    #[tactic(auto, unfolding(crate::specs::Reading::edge_of))]
    pub fn edge(self, mode: LineMode, reading: u32) -> Step
        ensures { result ≡ edge_of mode self reading }
    {
        match self {
            Reader::Fresh => open_on(reading),
            Reader::Open { at, last, bits } => go_on(mode, at, last, bits, reading),
            Reader::Dropping { last } => drop_on(mode, last, reading),
        }
    }
}
