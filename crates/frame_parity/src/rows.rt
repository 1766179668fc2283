// Multiples of the generator, worked out once for a burst: then a symbol costs three sums of rows, and no product.
ghost use Rattle.std.specs.Prelude.{◌≡◌, ◌<◌, length};
ghost use Rattle.frame_field.specs.Field.{◌⊗◌, alpha};
ghost use Rattle.frame_parity.specs.Working.{Row, RowTimes, RowSum, rows_of};

// The generator's coefficients below the highest, which is one: that of Z^43 first.
const LOWER: [u16; 44] = [
    208, 296, 68, 454, 338, 441, 123, 486, 328, 343, 226, 42, 196, 496, 34, 451, 480, 362, 268,
    264, 128, 311, 159, 483, 394, 239, 178, 63, 484, 26, 391, 194, 312, 421, 105, 384, 148, 356,
    350, 347, 237, 335, 89, 355,
];

// A symbol times alpha: doubled, less x^9 + x^4 + 1 (529) if there was an x^8.
#[tactic(auto, using(crate::proofs::RowLaws::low_alpha, crate::proofs::RowLaws::high_alpha))]
fn times_alpha(symbol: u16) -> u16
    ensures { symbol < 512 → result ≡ alpha ⊗ symbol }
{
    let doubled = symbol << 1;
    if symbol < 256 { doubled } else { doubled ^ 529 }
}

// A row times alpha.
fn row_times_alpha(row: [u16; 44]) -> [u16; 44]
    requires { Row row }
    ensures { RowTimes alpha row result }
{
    std::array::from_fn(|at| times_alpha(row[at]))
}

// The sum of two rows. (That both are as long as rows are is a premise of what is ensured, and not required: so the table's proof, which has it of each row, says it where a sum is used, and
// its calls ask for nothing.)
fn row_sum(one: [u16; 44], other: [u16; 44]) -> [u16; 44]
    ensures { length one ≡ 44 → length other ≡ 44 → RowSum one other result }
{
    std::array::from_fn(|at| one[at] ^ other[at])
}

// The lower coefficients times 0 to 7, times 0, 8, .. 56, and times 0, 64, .. 448. All of it in one function that is called once: so the compiler works most of it out. (A function for
// eight rows, called three times, is not worked out: it has a burst of one symbol cost some fourteen times as much, and needs the C library.)
pub(crate) fn table() -> [[u16; 44]; 24]
    ensures { result ≡ rows_of }
{
    let row_1 = LOWER;
    let row_2 = row_times_alpha(row_1);
    let row_4 = row_times_alpha(row_2);
    let row_8 = row_times_alpha(row_4);
    let row_16 = row_times_alpha(row_8);
    let row_32 = row_times_alpha(row_16);
    let row_64 = row_times_alpha(row_32);
    let row_128 = row_times_alpha(row_64);
    let row_256 = row_times_alpha(row_128);
    let row_3 = row_sum(row_1, row_2);
    let row_24 = row_sum(row_8, row_16);
    let row_192 = row_sum(row_64, row_128);
    [
        [0u16; 44],
        row_1,
        row_2,
        row_3,
        row_4,
        row_sum(row_1, row_4),
        row_sum(row_2, row_4),
        row_sum(row_3, row_4),
        [0u16; 44],
        row_8,
        row_16,
        row_24,
        row_32,
        row_sum(row_8, row_32),
        row_sum(row_16, row_32),
        row_sum(row_24, row_32),
        [0u16; 44],
        row_64,
        row_128,
        row_192,
        row_256,
        row_sum(row_64, row_256),
        row_sum(row_128, row_256),
        row_sum(row_192, row_256),
    ]
}
