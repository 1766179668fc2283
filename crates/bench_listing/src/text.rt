// The text of a listing, put together piece by piece.
ghost use Rattle.std.specs.Prelude.{◌≡◌, ◌+◌, ◌<◌, ◌≤◌, length};
ghost use Rattle.bench_listing.specs.Words.{decimal, hex_digits};
ghost use Rattle.bench_listing.specs.Listing.{mode_name, first_line, ending_word, attempt_line, last_line, refused_line};
ghost use Rattle.bench_listing.specs.Texts.{HasRoom, Adds};

use answers::Refusal;
use line_reader::{Broken, Ending};

// A text at the head of some bytes: it takes up as many of them as its length says. It is no fmt::Write, since a write! to a type of one's own says
// nothing of the bytes that it wrote.
#[derive(Drop)]
pub(crate) struct Text<'a> {
    bytes: &'a mut [u8],
    length: usize,
}

impl<'a> Text<'a> {
    pub(crate) fn new(bytes: &'a mut [u8]) -> Text<'a>
        ensures same { result.bytes.ghost_name ≡ bytes.entry.ghost_name }
        ensures bytes { result.bytes.now ≡ bytes.old }
        ensures empty { result.length ≡ 0 }
    {
        Text { bytes, length: 0 }
    }

    pub(crate) fn length(&self) -> usize
        ensures { result ≡ self.now.length }
    {
        self.length
    }

    // All of some bytes.
    fn put(&mut self, piece: &[u8])
        requires { HasRoom self.old (length piece.now) }
        ensures { Adds self.old piece.now self.new }
    {
        let length = self.length + piece.len();
        self.bytes[self.length..length].copy_from_slice(piece);
        self.length = length;
    }

    // A number in decimal. (The kit's io puts digits into a list that it is lent, and there is no heap here.)
    fn put_decimal(&mut self, number: usize)
        requires { (number < 10000) × HasRoom self.old 4 }
        ensures text { Adds self.old (decimal number) self.new }
        ensures short { self.new.length ≤ self.old.length + 4 }
    {
        let mut digits = [0; 20];
        let count = io::decimal(number as u64, &mut digits);
        self.put(&digits[..count]);
    }

    // A word in twelve hexadecimal digits.
    fn put_word(&mut self, word: u64)
        requires { HasRoom self.old 12 }
        ensures text { Adds self.old (hex_digits word) self.new }
        ensures long { self.new.length ≡ self.old.length + 12 }
    {
        let mut digits = [0; 16];
        let count = io::hex(word % page_word::WIDE, 12, &mut digits);
        self.put(&digits[..count]);
    }

    // The name of mode 0 or 1, which stays a number as line_captures::read takes it.
    fn put_mode(&mut self, mode: u32)
        requires { HasRoom self.old 3 }
        ensures text { Adds self.old (mode_name mode) self.new }
        ensures short { self.new.length ≤ self.old.length + 3 }
    {
        self.put(if mode == 1 { b"LSM" } else { b"HSM" });
    }

    // The first line: the mode and the number of readings.
    pub(crate) fn put_first_line(&mut self, mode: u32, edges: usize)
        requires { (edges < 10000) × HasRoom self.old 20 }
        ensures text { Adds self.old (first_line mode edges) self.new }
        ensures short { self.new.length ≤ self.old.length + 20 }
    {
        self.put(b"mode ");
        self.put_mode(mode);
        self.put(b" edges ");
        self.put_decimal(edges);
        self.put(b"\n");
    }

    // How an attempt ended.
    fn put_ending(&mut self, ending: Ending)
        requires { HasRoom self.old 17 }
        ensures text { Adds self.old (ending_word ending) self.new }
        ensures short { self.new.length ≤ self.old.length + 17 }
    {
        match ending {
            Ok(word) => {
                self.put(b"good ");
                self.put_word(word);
            }
            Err(Broken::Gap) => self.put(b"gap"),
            Err(Broken::Cut) => self.put(b"cut"),
            Err(Broken::Check) => self.put(b"check"),
        }
    }

    // An attempt's line: its number, and how it ended.
    pub(crate) fn put_attempt(&mut self, number: usize, ending: Ending)
        requires { (number < 10000) × HasRoom self.old 23 }
        ensures text { Adds self.old (attempt_line number ending) self.new }
        ensures short { self.new.length ≤ self.old.length + 23 }
    {
        self.put_decimal(number);
        self.put(b" ");
        self.put_ending(ending);
        self.put(b"\n");
    }

    // The last line: the numbers of good pages and of other attempts. (Of the first line's shape, with other words of 01.)
    pub(crate) fn put_last_line(&mut self, pages: usize, bad: usize)
        requires { (pages < 10000) × (bad < 10000) × HasRoom self.old 20 }
        ensures { Adds self.old (last_line pages bad) self.new }
    {
        self.put(b"pages ");
        self.put_decimal(pages);
        self.put(b" bad ");
        self.put_decimal(bad);
        self.put(b"\n");
    }

    // The one line of an input that is refused.
    pub(crate) fn put_refusal(&mut self, refusal: Refusal)
        requires { HasRoom self.old 13 }
        ensures { Adds self.old (refused_line refusal) self.new }
    {
        self.put(b"refused ");
        self.put_decimal(usize::from(u8::from(refusal)));
        self.put(b"\n");
    }
}
