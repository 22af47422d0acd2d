// Making a ladder, and its answers.
ghost use Rattle.std.specs.Prelude.{◌≡◌, false, ◌||◌, is_ok, None};
ghost use Rattle.std.specs.Option.{option_map};
ghost use Rattle.book.specs.Meaning.{side_of, has, left_of};
ghost use Rattle.book.specs.Making.{made_unless, filled_unless, made_as, result_means};
ghost use Rattle.ladder.specs.Rungs.{ladder_refused, ladder_of, EndsDecide};
ghost use Rattle.ladder.specs.Ladders.{ladder_means};
ghost use Rattle.book.proofs.Sound.{sound_parts};
ghost use Rattle.book.proofs.Telling.{takes_in_words};
ghost use Rattle.std.proofs.Common.{rules};

use crate::Ladder;
use crate::rail::Rail;
use crate::rungs::{MOST_RUNGS, Rungs};
use book::{Book, MakeError, Offer, OneSide, Refused, Sides, fill};
use units::{Lot, NoOrders, Number, Quantity, Ranged, Side};

impl Ladder {
    // Why no such ladder is made, if so: prices first, then lot and quantities, then how many rungs.
    // The law on ends stands in each contract up to the public ones, since it counts where a caller reads it.
    fn check(plan: &Sides<Rungs>) -> Result<(), MakeError>
        ensures value { result ≡ made_unless (ladder_refused plan.now) }
        ensures ends { EndsDecide }
    {
        if !(plan.buys.prices_in_range(Side::Buy) && plan.sells.prices_in_range(Side::Sell)) {
            return Err(MakeError::Price);
        }
        if !(plan.lot.in_range()
            && plan.buys.quantity_in_range(plan.lot)
            && plan.sells.quantity_in_range(plan.lot))
        {
            return Err(MakeError::Quantity);
        }
        if !(plan.buys.are_few() && plan.sells.are_few()) {
            return Err(MakeError::Full);
        }
        Ok(())
    }

    fn raise(plan: Sides<Rungs>) -> Ladder
        requires { ladder_refused plan ≡ None }
        ensures { ladder_means result ≡ ladder_of plan }
    {
        Ladder {
            sides: Sides {
                lot: plan.lot,
                buys: Rail::raise(Side::Buy, plan.lot, plan.buys),
                sells: Rail::raise(Side::Sell, plan.lot, plan.sells),
            },
        }
    }

    // The ladder of a plan; refused where a price, the lot, a quantity or a count of rungs is out of range.
    pub fn new(plan: Sides<Rungs>) -> Result<Ladder, MakeError>
        ensures value { result_means ladder_means result ≡ made_as (ladder_refused plan) (ladder_of plan) }
        ensures ends { EndsDecide }
    {
        Ladder::check(&plan)?;
        Ok(Ladder::raise(plan))
    }

    // The same in the caller's place, which a refusal leaves as it was. One call of `fill`: what it promises is over this kind's own meaning.
    // Checked and raised here, and not by `new`: so the ladder is written where it stays, and no whole ladder is copied from a result.
    #[tactic(auto, using(book::proofs::Making::fill_answers, book::proofs::Making::fill_means))]
    pub fn make(place: &mut Option<Ladder>, plan: Sides<Rungs>) -> Result<(), MakeError>
        ensures result { result ≡ made_unless (ladder_refused plan) }
        ensures after { option_map ladder_means place.new ≡ filled_unless (ladder_refused plan) (ladder_of plan) (option_map ladder_means place.old) }
        ensures unchanged { is_ok result ≡ false → place.new ≡ place.old }
        ensures ends { EndsDecide }
    {
        fill(place, Ladder::check(&plan).map(|()| Ladder::raise(plan)))
    }

    // What is left of a number on a side, 0 where the side does not have it.
    pub fn left(&self, side: Side, number: Number) -> Quantity
        ensures { result.0 ≡ left_of (side_of (ladder_means self.now) side) number.0 }
    {
        self.sides.side(side).left(number)
    }

    // Whether a rung of either side has the number.
    pub fn has(&self, number: Number) -> bool
        ensures { result ≡ has (ladder_means self.now).buys number.0 || has (ladder_means self.now).sells number.0 }
    {
        self.sides.has(number)
    }
}

impl Book for Ladder {
    type Orders = NoOrders;

    ghost means = { ladder_means };

    ghost MOST = { 64 };

    const MOST: usize = MOST_RUNGS;

    ghost few = { Prim.search rules };

    ghost lawful = { λ b. sound_parts 64 (ladder_means b) b.ok };

    ghost takes = { takes_in_words };

    fn lot(&self) -> Lot {
        self.sides.lot
    }

    // These go on to the sides: a type of its own for each kind of book keeps its law of how many offers a side may have.
    fn count(&self, side: Side) -> usize {
        self.sides.side(side).count()
    }

    fn offer(&self, side: Side, place: usize) -> Option<Offer> {
        self.sides.side(side).offer(place)
    }

    fn take(&mut self, side: Side, number: Number, amount: Quantity) -> Result<(), Refused> {
        self.sides.take(side, number, amount)
    }
}
