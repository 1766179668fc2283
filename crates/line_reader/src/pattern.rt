// Gaps of the delimiter.
ghost use Rattle.std.specs.Prelude.{◌≡◌, ◌+◌, ◌/◌, ◌%◌, ◌^◌, ◌≤◌};
ghost use Rattle.answers.specs.Choices.{◌=?◌};

// Whether of the bits of a mask from `at` to `at + k` just the first and the last are one.
pub(crate) fn spans(mask: u64, at: u32, k: u32) -> bool
    requires { (at ≤ 26) × (k ≤ 4) }
    ensures { result ≡ ((mask / 2 ^ at) % 2 ^ (k + 1) =? 2 ^ k + 1) }
{
    (mask >> at) % (2u64 << k) == (1u64 << k) + 1
}
