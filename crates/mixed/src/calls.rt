// Making a mixed book, and its answers.
ghost use Rattle.std.specs.Prelude.{◌≡◌, false, is_ok};
ghost use Rattle.std.specs.Option.{option_map};
ghost use Rattle.book.specs.Making.{made_unless, filled_unless, made_as, result_means};
ghost use Rattle.ladder.specs.Rungs.{ladder_refused, ladder_of, EndsDecide};
ghost use Rattle.mixed.specs.Mixed.{mixed_means};
ghost use Rattle.book.proofs.Sound.{sound_parts};
ghost use Rattle.book.proofs.Telling.{takes_in_words, removals_in_words};
ghost use Rattle.std.proofs.Common.{rules};

use crate::MixedBook;
use book::{Book, MOST_A_SIDE, MakeError, Offer, OpenBook, Refused, Sides, fill};
use kept::KeptBook;
use ladder::{Ladder, Rungs};
use units::{Lot, Number, OpenOrders, Quantity, Side};

impl MixedBook {
    // A ladder with no orders behind it yet; refused as the ladder alone would be.
    #[tactic(auto, using(crate::proofs::Parts::made_whole))]
    pub fn new(plan: Sides<Rungs>) -> Result<MixedBook, MakeError>
        ensures value { result_means mixed_means result ≡ made_as (ladder_refused plan) (ladder_of plan) }
        ensures ends { EndsDecide }
    {
        let lot = plan.lot;
        let rungs = Ladder::new(plan)?;
        let orders = KeptBook::new(lot)?;
        Ok(MixedBook { rungs, orders })
    }

    // The same in the caller's place, which a refusal leaves as it was. One call of `fill`: what it promises is over this kind's own meaning.
    #[tactic(auto, using(book::proofs::Making::fill_answers, book::proofs::Making::fill_means))]
    pub fn make(place: &mut Option<MixedBook>, plan: Sides<Rungs>) -> Result<(), MakeError>
        ensures result { result ≡ made_unless (ladder_refused plan) }
        ensures after { option_map mixed_means place.new ≡ filled_unless (ladder_refused plan) (ladder_of plan) (option_map mixed_means place.old) }
        ensures unchanged { is_ok result ≡ false → place.new ≡ place.old }
        ensures ends { EndsDecide }
    {
        fill(place, MixedBook::new(plan))
    }
}

impl Book for MixedBook {
    type Orders = OpenOrders;

    ghost means = { mixed_means };

    ghost MOST = { 128 };

    const MOST: usize = MOST_A_SIDE;

    ghost few = { Prim.search rules };

    ghost lawful = { λ b. sound_parts 128 (mixed_means b) b.ok };

    ghost takes = { takes_in_words };

    fn lot(&self) -> Lot {
        self.rungs.lot()
    }

    #[tactic(auto, using(crate::proofs::Joining::joined_count))]
    fn count(&self, side: Side) -> usize {
        self.rungs.count(side) + self.orders.count(side)
    }

    #[tactic(auto, using(crate::proofs::Joining::joined_front, crate::proofs::Joining::joined_back))]
    fn offer(&self, side: Side, place: usize) -> Option<Offer> {
        let rungs = self.rungs.count(side);
        if place < rungs {
            self.rungs.offer(side, place)
        } else {
            self.orders.offer(side, place - rungs)
        }
    }

    // Numbers are apart, so what the rungs refuse of a number of theirs, the orders do not have.
    #[tactic(auto, using(crate::proofs::Parts::take_front_answers, crate::proofs::Parts::take_front_leaves, crate::proofs::Parts::take_back_answers, crate::proofs::Parts::take_back_leaves))]
    fn take(&mut self, side: Side, number: Number, amount: Quantity) -> Result<(), Refused> {
        if self.rungs.take(side, number, amount).is_ok() {
            return Ok(());
        }
        self.orders.take(side, number, amount)
    }
}

impl OpenBook for MixedBook {
    ghost removals = { removals_in_words };

    fn enter(&mut self, side: Side, offer: Offer) -> Result<(), Refused> {
        if self.count(side) >= MOST_A_SIDE || self.rungs.has(offer.number) {
            return Err(Refused);
        }
        self.orders.enter(side, offer)
    }

    // A rung is removed by taking all that is left of it: a ladder itself removes nothing.
    #[tactic(auto, using(crate::proofs::Parts::remove_front_answers, crate::proofs::Parts::remove_front_leaves, crate::proofs::Parts::remove_back_answers, crate::proofs::Parts::remove_back_leaves))]
    fn remove(&mut self, side: Side, number: Number) -> Result<(), Refused> {
        let left = self.rungs.left(side, number);
        if self.rungs.take(side, number, left).is_ok() {
            return Ok(());
        }
        self.orders.remove(side, number)
    }
}
