// The listing of a capture.
ghost use Rattle.std.specs.Prelude.{◌≤◌, length};
ghost use Rattle.bench_listing.specs.Listing.{capture_listing};
ghost use Rattle.bench_listing.specs.Texts.{HasRoom, Adds};

use crate::text::Text;

// The first line, a line for each attempt from place to next place, and the last line. (A `while let`, since the next place is what the read gives.)
pub(crate) fn put_capture(text: &mut Text, mode: u32, capture: &[u32])
    requires { (length capture.now ≤ 8000) × HasRoom text.old 184040 }
    ensures { Adds text.old (capture_listing mode capture.now) text.new }
{
    text.put_first_line(mode, capture.len());
    let mut place = 0;
    let mut number = 0;
    let mut pages = 0;
    while let Ok(Some(attempt)) = line_captures::read(capture, place, mode) {
        number += 1;
        pages += usize::from(attempt.ending.is_ok());
        text.put_attempt(number, attempt.ending);
        place = attempt.next;
    }
    text.put_last_line(pages, number - pages);
}
