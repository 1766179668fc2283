// The two line modes, and how a gap is judged by a mode's numbers.
ghost use Rattle.std.specs.Prelude.{◌≡◌, if◌then◌else◌};
ghost use Rattle.answers.specs.Choices.{◌≤?◌};
ghost use Rattle.answers.specs.Answers.{said};
ghost use Rattle.line_mode.specs.declared.modes.Judgement.TheVariants.{Quiet, Unfit};
ghost use Rattle.line_mode.specs.Modes.{hsm_mode, lsm_mode, mode_of};
ghost use Rattle.line_mode.specs.Gaps.{judgement_of, said_of_gap, said_of_judging, judged};

use answers::{Answer, Refusal};

// A mode's numbers in ns, and whether it has the low-speed delimiter.
#[derive(Clone, Copy)]
pub struct LineMode {
    pub spacing: u32,
    pub tolerance: u32,
    pub quiet: u32,
    pub slow: bool,
}

// What a gap is.
#[derive(Drop)]
pub enum Judgement {
    Positions(u32),
    Quiet,
    Unfit,
}

// A gap that lies in no window.
fn off_windows(gap: u32, quiet: u32) -> Judgement
    ensures { result ≡ (if quiet ≤? gap then Quiet else Unfit) }
{
    if quiet <= gap {
        return Judgement::Quiet;
    }
    Judgement::Unfit
}

impl LineMode {
    pub const HSM: LineMode = LineMode {
        spacing: 30,
        tolerance: 9,
        quiet: 130,
        slow: false,
    };

    pub const LSM: LineMode = LineMode {
        spacing: 800,
        tolerance: 240,
        quiet: 3441,
        slow: true,
    };

    // High speed.
    pub fn hsm() -> Self
        ensures { result ≡ hsm_mode }
    {
        Self::HSM
    }

    // Low speed.
    pub fn lsm() -> Self
        ensures { result ≡ lsm_mode }
    {
        Self::LSM
    }

    // How many positions a gap counts as, or that it is quiet, or unfit. Each window begins one spacing after the last; how far into it the gap
    // reaches is a number above every width, by wrapping, where it does not reach it.
    #[inline(always)]
    pub fn judgement(self, gap: u32) -> Judgement
        ensures { result ≡ judgement_of self gap }
    {
        let spacing = u64::from(self.spacing);
        let width = 2 * u64::from(self.tolerance);
        let mut reach = u64::from(gap) + u64::from(self.tolerance);
        for k in 1..5 {
            reach = std::num::wrapping_sub_u64(reach, spacing);
            if reach <= width {
                return Judgement::Positions(k);
            }
        }
        off_windows(gap, self.quiet)
    }
}

// The mode that a number names: 0 is HSM, 1 is LSM. (An Option, and no TryFrom: each caller adds the refusal of its own.)
#[tactic(auto, unfolding(crate::specs::Modes::mode_of))]
pub fn mode_of(number: u32) -> Option<LineMode>
    ensures { result ≡ mode_of number }
{
    match number {
        0 => Some(LineMode::hsm()),
        1 => Some(LineMode::lsm()),
        _ => None,
    }
}

// How a gap counts in the mode of a number, which comes as C gives it: any number has an answer.
#[tactic(auto, unfolding(crate::specs::Gaps::judged))]
pub fn judge(mode: u32, gap: u32) -> Result<Judgement, Refusal>
    ensures { said_of_judging result ≡ judged mode gap }
{
    let known = mode_of(mode).ok_or(Refusal::Mode)?;
    Ok(known.judgement(gap))
}

impl From<Judgement> for Answer {
    // A judgement as an answer.
    fn from(judgement: Judgement) -> Answer
        ensures { said result ≡ said_of_gap judgement }
    {
        match judgement {
            Judgement::Positions(k) => Answer::Number(u64::from(k)),
            Judgement::Quiet => Answer::Quiet,
            Judgement::Unfit => Answer::Unfit,
        }
    }
}

// What judging has come to, as an answer: no `From`, since neither `Result` nor `Answer` is this crate's; and a definition of its own stands behind it, so that it shares no body with
// `page_resolve::answer_to`.
pub fn answer_to_judging(judging: Result<Judgement, Refusal>) -> Answer
    ensures { said result ≡ said_of_judging judging }
{
    match judging {
        Ok(judgement) => Answer::from(judgement),
        Err(refusal) => Answer::Refused(refusal),
    }
}
