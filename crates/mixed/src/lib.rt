// The open book with a ladder in front: stored orders stand behind its rungs, 128 offers a side in all.
#![tactic(auto)]

ghost use Rattle.std.specs.Prelude.{◌≡◌, true};
ghost use Rattle.book.specs.Laws.{sound};
ghost use Rattle.kept.specs.Kept.{kept_means};
ghost use Rattle.ladder.specs.Ladders.{ladder_means};
ghost use Rattle.mixed.specs.Joined.{joined};

use kept::KeptBook;
use ladder::Ladder;

mod calls;

#[derive(Drop)]
pub struct MixedBook {
    rungs: Ladder,
    orders: KeptBook,
    ghost lots: { (ladder_means rungs).lot ≡ (kept_means orders).lot },
    ghost ok: { sound 128 (joined (ladder_means rungs) (kept_means orders)) ≡ true },
}
