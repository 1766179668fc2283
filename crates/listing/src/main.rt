// The bench listing: a capture on standard input, its listing on standard output.
#![tactic(auto)]

ghost use Rattle.std.specs.Prelude.{◌≡◌, length, take, IfOk};
ghost use Rattle.io.specs.Counts.{IsPrefixLen};
ghost use Rattle.bench_listing.specs.Listing.{listing};

use bench_listing::{MOST_BYTES, MOST_READINGS};
use std::io;
use std::io::{ErrorKind, Read};
use std::process::ExitCode;

// 128 and the number of SIGPIPE.
const READER_GONE: u8 = 141;

// A byte for the mode, the longest capture and one byte more, so that a longer input is seen to be too long.
const MOST_INPUT: usize = 1 + 4 * MOST_READINGS + 1;

// Puts the listing of the input at the head of the output, and answers how many bytes it has.
fn list(input: &[u8], readings: &mut [u32], output: &mut [u8]) -> usize
    requires { (8000 ≡ length readings.old) × (184040 ≡ length output.old) }
    ensures prefix_len { IsPrefixLen result output.new }
    ensures output_after { take result output.new ≡ listing input.now }
{
    bench_listing::list(input, readings, output).unwrap()
}

// Reads until the input ends, the room is full or a read fails, and asks for each piece by itself: std's
// `read_exact` takes an end for a failure, and std's `read_to_end` reads on past the room and after a signal.
// After a failure no read is made, since a failure such as a connection's reset is told once and then
// looks like an end. Behind a full room none is made either: such an input is refused whatever follows.
fn take_input(source: &mut impl Read, room: &mut [u8]) -> io::Result<usize>
    ensures { IfOk result (λ count. IsPrefixLen count room.new) }
{
    let mut count = 0;
    while count < room.len() {
        match source.read(&mut room[count..])? {
            0 => break,
            more => count += more,
        }
    }
    Ok(count)
}

// How the program ends behind its last write: well, also where nothing could be written. Only where the reader
// of a pipe has gone does it end with the status that a shell shows of a program which the signal SIGPIPE
// ended: a program that Rattle starts ignores that signal, and its write fails instead.
fn ended_by(written: io::Result<()>) -> ExitCode {
    match written {
        Err(error) if error.kind() == ErrorKind::BrokenPipe => ExitCode::from(READER_GONE),
        _ => ExitCode::SUCCESS,
    }
}

// Writes the listing of an input. Where its reader has gone nothing is said of it.
fn write_listing(rt: &(impl Print + Eprint), input: &[u8]) -> ExitCode {
    let mut readings = [0; MOST_READINGS];
    let mut output = [0; MOST_BYTES];
    let count = list(input, &mut readings, &mut output);
    match rt.write_all(&output[..count]) {
        Err(error) if error.kind() != ErrorKind::BrokenPipe => {
            ended_by(rt.eprintln("listing: the output could not be written"))
        }
        written => ended_by(written),
    }
}

// Reads the input and writes its listing. Where a read failed nothing is listed: the listing of a part would look like that of a whole capture.
fn main(rt: HostRuntime) -> ExitCode {
    let mut input = [0; MOST_INPUT];
    match take_input(&mut rt.stdin(), &mut input) {
        Ok(count) => write_listing(&rt, &input[..count]),
        Err(_) => ended_by(rt.eprintln(
            "listing: the input could not be read to its end, so nothing is listed",
        )),
    }
}
