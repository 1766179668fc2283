// Cells of 64 bits: their bytes, low byte first, and what a cell means as a narrower number.
use crate::{CELL_BYTES, MOST_BYTES, MOST_CELLS};

// The cells of the bytes.
pub(crate) fn from_bytes(bytes: &[u8; MOST_BYTES], cells: &mut [u64; MOST_CELLS]) {
    let (whole, _) = bytes.as_chunks::<CELL_BYTES>();
    for (cell, bytes) in cells.iter_mut().zip(whole) {
        *cell = u64::from_le_bytes(*bytes);
    }
}

// The cells as narrower numbers, as far as both lists reach.
pub(crate) fn narrowed<T: Drop, F: Fn(u64) -> T>(cells: &[u64], numbers: &mut [T], number_of: F)
    requires { F.IsAlwaysCallable number_of }
{
    for (number, cell) in numbers.iter_mut().zip(cells) {
        *number = number_of(*cell);
    }
}

// A cell as a narrower number, and the greatest of these where it is too wide.
fn at_most<T: TryFrom<u64, Error: Drop> + Drop>(cell: u64, most: T) -> T {
    T::try_from(cell).unwrap_or(most)
}

// A mode: every number from 2 on is a wrong one, of whatever size.
pub(crate) fn mode_of(cell: u64) -> u32 {
    at_most(cell, u32::MAX)
}

// A clock reading, a gap or an entry of a list: taken modulo 2^32.
pub(crate) fn reading_of(cell: u64) -> u32 {
    (cell % 4294967296) as u32
}

// An entry of a state or a burst: above 65 535 it counts as 65 535.
pub(crate) fn symbol_of(cell: u64) -> u16 {
    at_most(cell, u16::MAX)
}
