// The calls for a program in any language, through a pipe: a row of calls on standard input, their answers on standard output.
// Every number is a cell of 64 bits, low byte first. A call is an operation, the number n of its arguments, and n arguments; its
// answer is the number of answer cells, and these. Input past 65 536 cells is not read. No answer is longer than three times its call, so
// each list has its room on the stack, and the program asks for no memory.
#![tactic(auto)]

ghost use Rattle.std.specs.Prelude.{◌≤◌, length};

mod calls;
mod cells;
mod lists;

use arrayvec::ArrayVec;
use std::io;
use std::io::Read;

// The most cells of the input.
const MOST_CELLS: usize = 65536;

// The most cells of the answers to it.
const MOST_ANSWERS: usize = 3 * MOST_CELLS;

const CELL_BYTES: usize = 8;

const MOST_BYTES: usize = CELL_BYTES * MOST_CELLS;

// An event has three cells.
const MOST_EVENTS: usize = MOST_CELLS / 3;

// The answers so far: of each call the number of its answer cells, and these. Each cell stands there as the bytes that are written.
type Answers = ArrayVec<[u8; CELL_BYTES], MOST_ANSWERS>;

// Room for the readings of a capture, or for the entries of a list that a page is written into.
type Readings = [u32; MOST_CELLS];

// Room for the answers to a run of events.
type Told = [u64; MOST_EVENTS];

// Reads until the room is full, the input ends or a read fails; how many bytes now stand at the head of the room. What came before a failure
// is answered like what comes before an end. Each read is lent all of the room that is left: of a packet, as some pipes and sockets have them,
// a read that is lent less gets the beginning alone, and std's `read_to_end` lends less.
fn take_input(source: &mut impl Read, room: &mut [u8; MOST_BYTES]) -> usize
    ensures { result ≤ length room.new }
{
    let mut count = 0;
    while count < room.len() {
        match source.read(&mut room[count..]) {
            Ok(0) | Err(_) => break,
            Ok(more) => count += more,
        }
    }
    count
}

// Reads the calls, answers them, writes the answers. A last cell that is not whole is not looked at. The answers' room comes ahead of the
// first call: behind one it is filled twice.
fn main(rt: HostRuntime) -> io::Result<()> {
    let mut input = [0; MOST_BYTES];
    let mut cells = [0; MOST_CELLS];
    let mut readings = [0; MOST_CELLS];
    let mut told = [0; MOST_EVENTS];
    let mut answers = Answers::new();
    let count = take_input(&mut rt.stdin(), &mut input);
    cells::from_bytes(&input, &mut cells);
    calls::answer_all(
        &mut answers,
        &mut readings,
        &mut told,
        &cells[..count / CELL_BYTES],
    );
    rt.write_all(answers.as_flattened())
}
