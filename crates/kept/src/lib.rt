// The open book that stores its offers, at most 128 a side.
#![tactic(auto)]

ghost use Rattle.std.specs.Prelude.{◌≡◌, true};
ghost use Rattle.book.specs.Laws.{sound};
ghost use Rattle.book.specs.Sides.{sides_mean};
ghost use Rattle.kept.specs.Tables.{stored};

use book::Sides;
use table::Table;

mod calls;
mod table;

#[derive(Drop)]
pub struct KeptBook {
    sides: Sides<Table>,
    ghost ok: { sound 128 (sides_mean stored sides) ≡ true },
}
