// The book of a formula: at most 64 rungs a side, of one quantity, a step apart; it takes no new orders.
#![tactic(auto)]

ghost use Rattle.std.specs.Prelude.{◌≡◌, true};
ghost use Rattle.book.specs.Laws.{sound};
ghost use Rattle.book.specs.Sides.{sides_mean};
ghost use Rattle.ladder.specs.Rails.{rail_offers};

use book::Sides;
use rail::Rail;

mod calls;
mod rail;
mod rungs;

pub use rungs::{Rungs, Step};

#[derive(Drop)]
pub struct Ladder {
    sides: Sides<Rail>,
    ghost ok: { sound 64 (sides_mean rail_offers sides) ≡ true },
}
