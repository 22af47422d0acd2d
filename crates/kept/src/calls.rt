// Making a kept book, and its answers.
ghost use Rattle.std.specs.Prelude.{◌≡◌, false, is_ok};
ghost use Rattle.std.specs.Option.{option_map};
ghost use Rattle.book.specs.Meaning.{can_enter};
ghost use Rattle.book.specs.Making.{made_unless, filled_unless, made_as, result_means};
ghost use Rattle.kept.specs.Kept.{kept_means, kept_refused, empty_book};
ghost use Rattle.book.proofs.Sound.{sound_parts};
ghost use Rattle.book.proofs.Telling.{takes_in_words, removals_in_words};
ghost use Rattle.std.proofs.Common.{rules};

use crate::KeptBook;
use crate::table::Table;
use book::{Book, MOST_A_SIDE, MakeError, Offer, OneSide, OpenBook, Refused, Sides, fill};
use units::{Lot, Number, OpenOrders, Quantity, Ranged, Side};

impl KeptBook {
    // An empty book of the lot; refused where the lot is out of range.
    pub fn new(lot: Lot) -> Result<KeptBook, MakeError>
        ensures { result_means kept_means result ≡ made_as (kept_refused lot.0) (empty_book lot.0) }
    {
        if !lot.in_range() {
            return Err(MakeError::Quantity);
        }
        let sides = Sides {
            lot,
            buys: Table::empty(),
            sells: Table::empty(),
        };
        Ok(KeptBook { sides })
    }

    // The same in the caller's place, which a refusal leaves as it was.
    pub fn make(place: &mut Option<KeptBook>, lot: Lot) -> Result<(), MakeError>
        ensures result { result ≡ made_unless (kept_refused lot.0) }
        ensures after { option_map kept_means place.new ≡ filled_unless (kept_refused lot.0) (empty_book lot.0) (option_map kept_means place.old) }
        ensures unchanged { is_ok result ≡ false → place.new ≡ place.old }
    {
        fill(place, KeptBook::new(lot))
    }

    // Whether an offer can join the side: there is room, its number is new, and it is in range.
    fn admits(&self, side: Side, offer: Offer) -> bool
        ensures { result ≡ can_enter 128 (kept_means self.now) side offer }
    {
        self.count(side) < MOST_A_SIDE
            && !self.sides.has(offer.number)
            && offer.in_range(self.sides.lot)
    }
}

impl Book for KeptBook {
    type Orders = OpenOrders;

    ghost means = { kept_means };

    ghost MOST = { 128 };

    const MOST: usize = MOST_A_SIDE;

    ghost few = { Prim.search rules };

    ghost lawful = { λ b. sound_parts 128 (kept_means b) b.ok };

    ghost takes = { takes_in_words };

    fn lot(&self) -> Lot {
        self.sides.lot
    }

    // These go on to the sides: a type of its own for each kind of book keeps its law of how many offers a side may have.
    fn count(&self, side: Side) -> usize {
        self.sides.side(side).count()
    }

    fn offer(&self, side: Side, place: usize) -> Option<Offer> {
        self.sides.side(side).offer(place)
    }

    fn take(&mut self, side: Side, number: Number, amount: Quantity) -> Result<(), Refused> {
        self.sides.take(side, number, amount)
    }
}

impl OpenBook for KeptBook {
    ghost removals = { removals_in_words };

    fn enter(&mut self, side: Side, offer: Offer) -> Result<(), Refused> {
        if !self.admits(side, offer) {
            return Err(Refused);
        }
        self.sides.side_mut(side).push(offer);
        Ok(())
    }

    #[tactic(auto, using(crate::proofs::Keeping::kept_removed))]
    fn remove(&mut self, side: Side, number: Number) -> Result<(), Refused> {
        self.sides.side_mut(side).remove(number)
    }
}
