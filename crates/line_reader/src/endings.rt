// How an attempt ends, and what an edge says.
ghost use Rattle.std.specs.Prelude.{◌≡◌};
ghost use Rattle.answers.specs.Answers.{said};
ghost use Rattle.line_reader.specs.Endings.{refusal_of, said_of_ending, said_of_heard};

use answers::{Answer, Refusal};

// What breaks an attempt: a wrong gap, quiet, or check bits that do not agree.
#[derive(Clone, Copy)]
pub enum Broken {
    Gap,
    Cut,
    Check,
}

// How an attempt ends: with a good page's word, or broken.
pub type Ending = Result<u64, Broken>;

// What an edge says: nothing, or how the attempt ended.
pub type Heard = Option<Ending>;

impl From<Broken> for Refusal {
    // The refusal that tells what broke an attempt.
    fn from(broken: Broken) -> Refusal
        ensures { result ≡ refusal_of broken }
    {
        match broken {
            Broken::Gap => Refusal::Gap,
            Broken::Cut => Refusal::Cut,
            Broken::Check => Refusal::Check,
        }
    }
}

// The ending as an answer: no `From`, since neither `Result` nor `Answer` is this crate's.
pub fn answer_to_ending(ending: Ending) -> Answer
    ensures { said result ≡ said_of_ending ending }
{
    match ending {
        Ok(word) => Answer::Page(word),
        Err(broken) => Answer::Refused(Refusal::from(broken)),
    }
}

// What is heard, as an answer.
pub fn answer_to_heard(heard: Heard) -> Answer
    ensures { said result ≡ said_of_heard heard }
{
    match heard {
        None => Answer::Nothing,
        Some(ending) => answer_to_ending(ending),
    }
}
