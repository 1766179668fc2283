// Time between clock readings.
ghost use Rattle.std.specs.Prelude.{◌≡◌};
ghost use Rattle.line_mode.specs.Clock.{time_between};

// The later reading less the earlier one modulo 2^32. Readings are never compared by size: the counter may have rolled over.
pub fn time_between(later: u32, earlier: u32) -> u32
    ensures { result ≡ time_between later earlier }
{
    std::num::wrapping_sub_u32(later, earlier)
}
