// The table of refusals of document 01, of its amendments and of requests of 02, and the one way in which an answer becomes a number.
#![tactic(auto)]

ghost use Rattle.std.specs.Prelude.{◌≡◌, ◌+◌, if◌then◌else◌};
ghost use Rattle.answers.specs.Numbers.{number_of, refusal_of};
ghost use Rattle.answers.specs.Answers.{said, said_count, packed, saying};

// The refusals, in the order of their numbers: 01's table, then what requests have added.
#[derive(Clone, Copy)]
pub enum Refusal {
    Gap,
    Cut,
    Check,
    Selector,
    Tie,
    Changed,
    Echo,
    None,
    Roles,
    Register,
    Turn,
    Room,
    Wide,
    Mode,
    Odd,
    Toggle,
    Symbol,
    Count,
    Run,
    Length,
}

// What a call answers. A value stands in the variant that carries it. (A case for refusals, and no Result: of a device's event a refusal is an answer like the others, the device goes on
// after it, and there is nothing for `?` to leave.)
#[derive(Drop)]
pub enum Answer {
    Nothing,
    Refused(Refusal),
    Page(u64),
    Order(u64),
    Settled { ability: u8, master: bool },
    Value(u16),
    Number(u64),
    Quiet,
    Unfit,
}

impl From<Refusal> for u8 {
    // The refusal's number in 01's table, or the one that a request gave it. (Discriminants would say it too, but no two variants can have one number, as the wrong
    // answers `tie_numbered_as_changed` and its like need it.)
    fn from(refusal: Refusal) -> u8
        ensures { result ≡ number_of refusal }
    {
        match refusal {
            Refusal::Gap => 1,
            Refusal::Cut => 2,
            Refusal::Check => 3,
            Refusal::Selector => 4,
            Refusal::Tie => 5,
            Refusal::Changed => 6,
            Refusal::Echo => 7,
            Refusal::None => 8,
            Refusal::Roles => 9,
            Refusal::Register => 10,
            Refusal::Turn => 11,
            Refusal::Room => 12,
            Refusal::Wide => 13,
            Refusal::Mode => 14,
            Refusal::Odd => 15,
            Refusal::Toggle => 17,
            Refusal::Symbol => 20,
            Refusal::Count => 21,
            Refusal::Run => 24,
            Refusal::Length => 25,
        }
    }
}

impl From<u8> for Refusal {
    // The refusal that a number names; the first, if it names none.
    #[tactic(auto, unfolding(crate::specs::Numbers::refusal_of))]
    fn from(number: u8) -> Refusal
        ensures { result ≡ refusal_of number }
    {
        match number {
            2 => Refusal::Cut,
            3 => Refusal::Check,
            4 => Refusal::Selector,
            5 => Refusal::Tie,
            6 => Refusal::Changed,
            7 => Refusal::Echo,
            8 => Refusal::None,
            9 => Refusal::Roles,
            10 => Refusal::Register,
            11 => Refusal::Turn,
            12 => Refusal::Room,
            13 => Refusal::Wide,
            14 => Refusal::Mode,
            15 => Refusal::Odd,
            17 => Refusal::Toggle,
            20 => Refusal::Symbol,
            21 => Refusal::Count,
            24 => Refusal::Run,
            25 => Refusal::Length,
            _ => Refusal::Gap,
        }
    }
}

// 2^56: the kind of an answer stands above its value.
pub const KIND: u64 = 72057594037927936;

// A kind and a value as one number.
fn joined(kind: u8, value: u64) -> u64
    ensures { result ≡ packed (saying kind value) }
{
    (kind as u64) * KIND + value % KIND
}

// An ability and a role as one value.
fn rate_and_role(ability: u8, master: bool) -> u64
    ensures { result ≡ (if master then ability + 256 else ability) }
{
    if master {
        (ability as u64) + 256
    } else {
        ability as u64
    }
}

impl Answer {
    // The answer as one number, for programs that know no enum. (No From: it would hide that a value of 2^56 or more loses its upper bits.)
    pub fn packed(self) -> u64
        ensures { result ≡ packed (said self) }
    {
        match self {
            Answer::Nothing => joined(0, 0),
            Answer::Refused(refusal) => joined(u8::from(refusal), 0),
            Answer::Page(word) => joined(128, word),
            Answer::Order(word) => joined(129, word),
            Answer::Settled { ability, master } => joined(130, rate_and_role(ability, master)),
            Answer::Value(value) => joined(131, value as u64),
            Answer::Number(number) => joined(132, number),
            Answer::Quiet => joined(133, 0),
            Answer::Unfit => joined(134, 0),
        }
    }
}

impl From<Result<usize, Refusal>> for Answer {
    // What a call that counts, or refuses, has come to.
    fn from(counted: Result<usize, Refusal>) -> Answer
        ensures { said result ≡ said_count counted }
    {
        match counted {
            Ok(count) => Answer::Number(count as u64),
            Err(refusal) => Answer::Refused(refusal),
        }
    }
}
