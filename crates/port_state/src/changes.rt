// The device with one thing changed. Every change of a device, but for forgetting a link, is one of these: a field of the record is spelled here and
// in specs/Changes, and nowhere above. They differ in the field that they name, and no parameter can name a field; docs/PROMISES.md names each.
ghost use Rattle.std.specs.Prelude.{◌≡◌};
ghost use Rattle.port_state.specs.Changes.{with_state, with_advertised, with_flags, with_partner, with_outcome, with_reader, with_own, with_held, with_out, with_count, with_mark, with_timer, with_latch, with_own_next, with_held_next, with_transmit, with_loaded, with_heard_next, with_round, with_good};

use crate::rounds::Round;
use crate::{Device, Outcome, State};
use line_reader::Reader;

impl Device {
    pub fn with_state(mut self, state: State) -> Self
        ensures { result ≡ with_state state self }
    {
        self.state = state;
        self
    }

    // 7.514-516.
    pub fn with_advertised(mut self, advertised: u64) -> Self
        ensures { result ≡ with_advertised advertised self }
    {
        self.lasting.advertised = advertised;
        self
    }

    // Page received and Remote fault.
    pub fn with_flags(mut self, received: bool, fault: bool) -> Self
        ensures { result ≡ with_flags received fault self }
    {
        self.lasting.flags.received = received;
        self.lasting.flags.fault = fault;
        self
    }

    // 7.517-519.
    pub fn with_partner(mut self, partner: u64) -> Self
        ensures { result ≡ with_partner partner self }
    {
        self.link.partner = partner;
        self
    }

    pub fn with_outcome(mut self, outcome: Outcome) -> Self
        ensures { result ≡ with_outcome outcome self }
    {
        self.link.outcome = outcome;
        self
    }

    pub fn with_reader(mut self, reader: Reader) -> Self
        ensures { result ≡ with_reader reader self }
    {
        self.link.reader = reader;
        self
    }

    // The own base page.
    pub fn with_own(mut self, own: u64) -> Self
        ensures { result ≡ with_own own self }
    {
        self.link.talk.own = own;
        self
    }

    // The held base page.
    pub fn with_held(mut self, held: u64) -> Self
        ensures { result ≡ with_held held self }
    {
        self.link.talk.held = held;
        self
    }

    // Whether a page is out.
    pub fn with_out(mut self, out: bool) -> Self
        ensures { result ≡ with_out out self }
    {
        self.link.talk.out = out;
        self
    }

    // How many pages were sent in Complete.
    pub fn with_count(mut self, count: u32) -> Self
        ensures { result ≡ with_count count self }
    {
        self.link.talk.count = count;
        self
    }

    // The one mark: whether it is "heard" or "waiting", and its reading.
    pub fn with_mark(mut self, heard: bool, reading: u32) -> Self
        ensures { result ≡ with_mark heard reading self }
    {
        self.link.talk.heard = heard;
        self.link.talk.mark = reading;
        self
    }

    // The reading at which the state's timer started.
    pub fn with_timer(mut self, reading: u32) -> Self
        ensures { result ≡ with_timer reading self }
    {
        self.link.talk.timer = reading;
        self
    }

    // The link latch of 7.513.
    pub fn with_latch(mut self, latch: bool) -> Self
        ensures { result ≡ with_latch latch self }
    {
        self.link.talk.latch = latch;
        self
    }

    // The own Next Page.
    pub fn with_own_next(mut self, own: u64) -> Self
        ensures { result ≡ with_own_next own self }
    {
        self.link.next.own = own;
        self
    }

    // The held Next Page.
    pub fn with_held_next(mut self, held: u64) -> Self
        ensures { result ≡ with_held_next held self }
    {
        self.link.next.held = held;
        self
    }

    // 7.520-522.
    pub fn with_transmit(mut self, transmit: u64) -> Self
        ensures { result ≡ with_transmit transmit self }
    {
        self.link.next.transmit = transmit;
        self
    }

    // Whether an own Next Page is loaded.
    pub fn with_loaded(mut self, loaded: bool) -> Self
        ensures { result ≡ with_loaded loaded self }
    {
        self.link.next.loaded = loaded;
        self
    }

    // 7.523-525.
    pub fn with_heard_next(mut self, heard: u64) -> Self
        ensures { result ≡ with_heard_next heard self }
    {
        self.link.next.heard = heard;
        self
    }

    pub fn with_round(mut self, round: Round) -> Self
        ensures { result ≡ with_round round self }
    {
        self.link.next.round = round;
        self
    }

    // The reading of the last good page.
    pub fn with_good(mut self, reading: u32) -> Self
        ensures { result ≡ with_good reading self }
    {
        self.link.next.good = reading;
        self
    }
}
