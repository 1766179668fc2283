// Lists of entries that a caller lends: are they symbols, and the first of them put over those of another.
ghost use Rattle.std.specs.Prelude.{◌≡◌, ◌≤◌, ◌++◌, length, drop};
ghost use Rattle.frame_polynomial.specs.Frame.{all_symbols};

// The entries of a state, of which the last is the count.
pub(crate) const STATE_ENTRIES: usize = 45;

// The symbols of a register, and so the parity symbols of a frame.
pub(crate) const PARITY_SYMBOLS: usize = 44;

// The data symbols of a frame.
pub(crate) const DATA_SYMBOLS: usize = 406;

// Whether numbers are symbols: just if all their bits, put into one number, make one below 512. No test ends the fold, as it would `all`, so that the compiler can take several numbers in a turn.
#[tactic(auto, using(crate::proofs::Looking::looked_all))]
pub(crate) fn all_symbols(list: &[u16]) -> bool
    ensures { result ≡ all_symbols list.now }
{
    list.iter().fold(0u16, |bits, number| bits | *number) < 512
}

// Puts entries over the first of a list.
pub(crate) fn put_first(list: &mut [u16], entries: &[u16])
    requires { length entries.now ≤ length list.old }
    ensures { list.new ≡ entries.now ++ drop (length entries.now) list.old }
{
    list[..entries.len()].copy_from_slice(entries);
}
