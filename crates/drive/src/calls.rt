// The calls, and what each is answered with.
ghost use Rattle.std.specs.Prelude.{◌+◌, ◌*◌, ◌≤◌, length};
ghost use Rattle.arrayvec.specs.ArrayVec.{array_vec_len};

use crate::cells::{mode_of, reading_of};
use crate::lists::{edges, messages, none, one, parity_finish, parity_take, read, run, write};
use crate::{Answers, Readings, Told};
use answers::Answer;
use line_mode::{answer_to_judging, judge};
use page_resolve::{answer_to, resolve};

// Puts the number of the answer cells of one call, and these, behind the answers that stand there. An unknown operation has none, and neither
// has one with too few arguments. The long lists are lent from outside: with lists of its own each call would fill them anew.
fn answer_one(
    answers: &mut Answers,
    readings: &mut Readings,
    told: &mut Told,
    operation: u64,
    arguments: &[u64],
)
    requires { array_vec_len answers.old + 3 * length arguments.now + 6 ≤ 196608 }
    ensures { array_vec_len answers.new ≤ array_vec_len answers.old + 3 * length arguments.now + 6 }
{
    // docs/INTERFACES.md fixes the numbers, and they are decoded here once.
    match (operation, arguments) {
        (1, [word, ..]) => {
            let bits = page_check_bits::check(*word).map(|bits| bits as usize);
            one(answers, Answer::from(bits))
        }
        (2, [mode, gap, ..]) => one(
            answers,
            answer_to_judging(judge(mode_of(*mode), reading_of(*gap))),
        ),
        (3, [mode, word, first, place, list @ ..]) => {
            write(answers, readings, *mode, *word, *first, *place, list)
        }
        (4, [mode, place, capture @ ..]) => read(answers, readings, *mode, *place, capture),
        (5, [own, partner, ..]) => one(answers, answer_to(resolve(*own, *partner))),
        (6, events) => run(answers, told, events),
        (7, [mode, readings @ ..]) => edges(answers, *mode, readings),
        (8, pages) => messages(answers, pages),
        (9, list) => match list.split_first_chunk() {
            Some((state, burst)) => parity_take(answers, state, burst),
            None => none(answers),
        },
        (10, list) => match list.split_first_chunk() {
            Some((state, _)) => parity_finish(answers, state),
            None => none(answers),
        },
        _ => none(answers),
    }
}

// Puts the answers to all calls in the cells behind those that stand there, up to a call that the cells do not hold whole.
pub(crate) fn answer_all(
    answers: &mut Answers,
    readings: &mut Readings,
    told: &mut Told,
    cells: &[u64],
)
    requires { array_vec_len answers.old + 3 * length cells.now ≤ 196608 }
    ensures { array_vec_len answers.new ≤ array_vec_len answers.old + 3 * length cells.now }
{
    let mut calls = cells;
    // No iterator has the calls: where the next one starts is known only where this one ends.
    while let [operation, count, rest @ ..] = calls {
        let Some((arguments, next)) = rest.split_at_checked(*count as usize) else {
            break;
        };
        answer_one(answers, readings, told, *operation, arguments);
        calls = next;
    }
}
