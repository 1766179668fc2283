// A run of events as numbers, from a fresh device.
ghost use Rattle.std.specs.Prelude.{◌≡◌, ◌+◌, ◌≤◌, length};
ghost use Rattle.answers.specs.Answers.{said_count, put_at};
ghost use Rattle.port_step.specs.Runs.{events_of, answers_to, run_of};
ghost use Rattle.port_lent.specs.Quickly.{numbers_at};

use crate::lent::{fresh_record, take_event};
use answers::Refusal;

// An event as numbers. Kind, clock and argument are what the C call takes.
#[derive(Drop)]
pub struct EventNumbers {
    pub kind: u64,
    pub clock: u64,
    pub argument: u64,
}

// The numbers of the event that stand from a place on: the wrong answer argument_read_as_the_clock is refused here.
fn numbers_at(events: &[u64], place: usize) -> EventNumbers
    requires { place + 3 ≤ length events.now }
    ensures { result ≡ numbers_at events.now place }
{
    EventNumbers {
        kind: events[place],
        clock: events[place + 1],
        argument: events[place + 2],
    }
}

// Puts the answers at the head of a list that has room for them. (By index: an event's three cells and the place of its answer go by one number; over chunks it would be the same number with
// a pattern beside it.)
fn answer_all(events: &[u64], answers: &mut [u64])
    requires { length (events_of events.now) ≤ length answers.old }
    ensures { answers.new ≡ put_at 0 (answers_to events.now) answers.old }
{
    let mut plain = fresh_record();
    for taken in 0..events.len() / 3 {
        let event = numbers_at(events, 3 * taken);
        answers[taken] = take_event::<true>(&mut plain, event.kind, event.clock, event.argument);
    }
}

// Takes events from a fresh device and answers each.
#[tactic(auto, using(crate::proofs::RunLoop::too_few, crate::proofs::RunLoop::all_answered, crate::proofs::RunLoop::has_room))]
pub fn run(events: &[u64], answers: &mut [u64]) -> Result<usize, Refusal>
    ensures says { said_count result ≡ (run_of events.now answers.old).says }
    ensures leaves { answers.new ≡ (run_of events.now answers.old).list }
{
    let count = events.len() / 3;
    if answers.len() < count {
        return Err(Refusal::Room);
    }
    answer_all(events, answers);
    Ok(count)
}
