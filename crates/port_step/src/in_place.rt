// The step on a device that the caller lends, which is changed where it lies.
ghost use Rattle.std.specs.Prelude.{◌≡◌};
ghost use Rattle.answers.specs.Answers.{said};
ghost use Rattle.port_step.specs.Steps.{step_due};

use crate::events::{Event, step};
use answers::Answer;
use port_state::Device;

// Takes an event. Answer and device are those that the step by value gives: no rule is added.
pub fn step_in_place(device: &mut Device, event: Event) -> Answer
    ensures says { said result ≡ (step_due event device.old).says }
    ensures leaves { device.new ≡ (step_due event device.old).device }
{
    let reply = step(*device, event);
    *device = reply.device;
    reply.answer
}
