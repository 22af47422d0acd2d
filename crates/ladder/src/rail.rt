// One side of a standing ladder: numbers, prices and firms by formula, so that only what is left of each rung is stored.
ghost use Rattle.std.specs.Prelude.{◌≡◌, ℕ, ◌<◌, ◌≤◌, length, slice_index};
ghost use Rattle.ladder.specs.Rungs.{rung_price};

use crate::rungs::{MOST_RUNGS, Step};
use units::{Price, Side};

mod calls;

#[derive(Drop)]
pub(crate) struct Rail {
    side: Side,
    first: Price,
    step: Step,
    // of each rung, all 64 of them: no list with a length
    left: [u32; MOST_RUNGS],
    ghost places: { length left ≡ 64 },
    ghost fits: { (k : ℕ) → 0 < slice_index left k → rung_price side first.0 step.0 k ≤ 1000000000 },
}
