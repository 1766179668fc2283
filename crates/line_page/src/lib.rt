// The pattern of a page: the delimiter of each mode.
#![tactic(auto)]

ghost use Rattle.std.specs.Prelude.{◌≡◌, ◌++◌, ◌∷◌, []};
ghost use Rattle.line_page.specs.Pattern.{delimiter_of, mask_of};

use line_mode::LineMode;

// The delimiters and the first clock: bit p is one where position p has a transition. A mask, since an array would be laid out anew at every use.
const HSM_START: u64 = 0xF28F1AE;

const LSM_START: u64 = 0xDDDABFE;

// The positions from 1 to 27 at which every page of a mode has a transition.
pub fn start(mode: LineMode) -> u64
    ensures { result ≡ mask_of (delimiter_of mode ++ (27 ∷ [])) }
{
    if mode.slow { LSM_START } else { HSM_START }
}
