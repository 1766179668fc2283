// The registers 7.512 to 7.525: reading and writing them. A register comes as any number, as the host gives it, and is told apart here alone. (`device` stands beside what is written or the
// reading: every change makes another device and keeps those.)
#![tactic(auto)]

ghost use Rattle.std.specs.Prelude.{◌≡◌, ◌<◌, ◌≤◌, ◌^◌, if◌then◌else◌};
ghost use Rattle.answers.specs.Answers.{register_value};
ghost use Rattle.page_word.specs.Word.{has_bit};
ghost use Rattle.port_state.specs.Memory.{Meets, due, is_off};
ghost use Rattle.port_registers.specs.Registers.{third_at, in_bank, register_of, bank_of, status_value, status_read, read_due, enters_break_by, commanded, loads, transmit_written, bank_written, write_due};

use answers::{Answer, Refusal};
use page_word::{Third, third_of, with_third};
use port_state::{Device, Reply, State, answered, enter_break, enter_off};

// Three registers that hold a page.
#[derive(Drop)]
pub enum Bank {
    Advertised,
    Partner,
    Transmit,
    Heard,
}

// The registers that there are.
#[derive(Drop)]
pub enum Register {
    Control,
    Status,
    Part { bank: Bank, third: Third },
}

// A bank's registers, in order. (A `match` of three, alike by text alone with those of port_state that name a state or a round.)
fn third_at(place: u64) -> Third
    ensures { result ≡ third_at place }
{
    match place {
        0 => Third::Low,
        1 => Third::Middle,
        _ => Third::High,
    }
}

// The banks, in order.
fn in_bank(place: u64, third: Third) -> Option<Register>
    ensures { result ≡ in_bank place third }
{
    let bank = match place {
        0 => Bank::Advertised,
        1 => Bank::Partner,
        2 => Bank::Transmit,
        3 => Bank::Heard,
        _ => return None,
    };
    Some(Register::Part { bank, third })
}

// The register that a number names, if it names one.
#[tactic(auto, unfolding(crate::specs::Registers::register_of))]
fn register_of(number: u64) -> Option<Register>
    ensures { result ≡ register_of number }
{
    match number {
        0..=511 => None,
        512 => Some(Register::Control),
        513 => Some(Register::Status),
        _ => {
            let place = number - 514;
            in_bank(place / 3, third_at(place % 3))
        }
    }
}

// The page that a bank holds.
fn bank_of(device: Device, bank: Bank) -> u64
    ensures { result ≡ bank_of bank device }
{
    match bank {
        Bank::Advertised => device.lasting.advertised,
        Bank::Partner => device.link.partner,
        Bank::Transmit => device.link.next.transmit,
        Bank::Heard => device.link.next.heard,
    }
}

// What 512 reads as.
fn control_value(state: State) -> u16
    ensures { result ≡ (if is_off state then 0 else 2 ^ 12) }
{
    if state == State::Off {
        return 0;
    }
    4096
}

// A bit's value, or 0.
fn bit_if(test: bool, value: u16) -> u16
    ensures exactly { result ≡ (if test then value else 0) }
    ensures small { result ≤ value }
{
    if test { value } else { 0 }
}

// What 513 reads as.
#[tactic(auto, unfolding(crate::specs::Registers::status_bits))]
fn status_value(device: Device) -> u16
    ensures { result ≡ status_value device }
{
    let six = bit_if(device.lasting.flags.received, 64);
    let five = bit_if(device.state == State::Up, 32);
    let four = bit_if(device.lasting.flags.fault, 16);
    let two = bit_if(device.link.talk.latch, 4);
    six + (five + (four + (8 + two)))
}

// The device after a read of 513. The value is taken before, since the read clears what it answers.
fn after_status(device: Device) -> Device
    ensures { result ≡ status_read device }
{
    device
        .with_latch(device.state == State::Up)
        .with_flags(false, false)
}

// A read of 513.
fn read_status(device: Device) -> Reply
    ensures { Meets result (due (register_value (status_value device)) (status_read device)) }
{
    answered(Answer::Value(status_value(device)), after_status(device))
}

// Reads a register.
#[tactic(auto, unfolding(crate::specs::Registers::read_due))]
pub fn read(device: Device, register: u64) -> Reply
    ensures { Meets result (read_due register device) }
{
    match register_of(register) {
        Some(Register::Control) => answered(Answer::Value(control_value(device.state)), device),
        Some(Register::Status) => read_status(device),
        Some(Register::Part { bank, third }) => answered(
            Answer::Value(third_of(bank_of(device, bank), third)),
            device,
        ),
        None => answered(Answer::Refused(Refusal::Register), device),
    }
}

// Whether a value written to 512 has this bit.
fn has_bit(value: u16, bit: u8) -> bool
    requires { bit < 16 }
    ensures { result ≡ has_bit value bit }
{
    (value >> bit) % 2 == 1
}

// Whether a device that is enabled goes into Break.
fn restarts(value: u16, state: State) -> bool
    ensures { result ≡ enters_break_by value state }
{
    has_bit(value, 9) || state == State::Off
}

// The device after a write to 512.
#[tactic(auto, unfolding(crate::specs::Registers::commanded))]
fn command(device: Device, value: u16, reading: u32) -> Device
    ensures { result ≡ commanded value reading device }
{
    if has_bit(value, 15) {
        return Device::fresh();
    }
    if !has_bit(value, 12) {
        return enter_off(device);
    }
    if restarts(value, device.state) {
        return enter_break(device, reading);
    }
    device
}

// Whether a write of this one of 520-522 loads a page: 520 comes last, so that the page is whole.
fn loads(third: Third, loaded: bool) -> bool
    ensures { result ≡ loads third loaded }
{
    match third {
        Third::Low => true,
        Third::Middle | Third::High => loaded,
    }
}

// The device with one of 520-522 written.
fn write_transmit(device: Device, third: Third, value: u16) -> Device
    ensures { result ≡ transmit_written third value device }
{
    device
        .with_transmit(with_third(device.link.next.transmit, third, value))
        .with_loaded(loads(third, device.link.next.loaded))
}

// The device with one register of a bank written, if that may be. The two banks that are read only have an arm each, since of each a wrong answer is refused there
// (partner_written_as_advertised, heard_page_written).
fn write_bank(device: Device, bank: Bank, third: Third, value: u16) -> Device
    ensures { result ≡ bank_written bank third value device }
{
    match bank {
        Bank::Advertised => device.with_advertised(with_third(
            device.lasting.advertised,
            third,
            value,
        )),
        Bank::Partner => device,
        Bank::Transmit => write_transmit(device, third, value),
        Bank::Heard => device,
    }
}

// Writes a register at a clock reading.
#[tactic(auto, unfolding(crate::specs::Registers::write_due))]
pub fn write(device: Device, register: u64, value: u16, reading: u32) -> Reply
    ensures { Meets result (write_due register value reading device) }
{
    match register_of(register) {
        Some(Register::Control) => answered(Answer::Nothing, command(device, value, reading)),
        Some(Register::Status) => answered(Answer::Nothing, device),
        Some(Register::Part { bank, third }) => {
            answered(Answer::Nothing, write_bank(device, bank, third, value))
        }
        None => answered(Answer::Refused(Refusal::Register), device),
    }
}
