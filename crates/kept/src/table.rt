// The stored offers of one side, in the order of their entry: their room is in the value itself, so that no call allocates.
ghost use Rattle.std.specs.Prelude.{◌≡◌, ◌<◌, [], ◌∷◌, ◌++◌, length, position, if◌then◌else◌};
ghost use Rattle.std.specs.List.{remove};
ghost use Rattle.book.specs.Meaning.{numbered, when, has, without};
ghost use Rattle.kept.specs.Tables.{stored};

use arrayvec::ArrayVec;
use book::{MOST_A_SIDE, Offer, OneSide, Refused, whole_lots};
use units::{Lot, Number, Quantity};

// A type of its own round the vector, so that this crate can say how it is a side of a book.
#[derive(Drop)]
pub(crate) struct Table {
    offers: ArrayVec<Offer, MOST_A_SIDE>,
}

impl Table {
    pub(crate) fn empty() -> Table
        ensures { stored result ≡ [] }
    {
        Table {
            offers: ArrayVec::new(),
        }
    }

    // Where the offer of the number stands.
    fn place(&self, number: Number) -> Option<usize>
        ensures { result ≡ position (numbered number.0) (stored self.now) }
    {
        self.offers
            .as_slice()
            .iter()
            .position(|offer| offer.number == number)
    }

    pub(crate) fn push(&mut self, offer: Offer)
        requires { length (stored self.old) < 128 }
        ensures { stored self.new ≡ stored self.old ++ offer ∷ [] }
    {
        self.offers.push(offer);
    }

    #[tactic(auto, using(crate::proofs::Places::some_has, crate::proofs::Places::unplaced, crate::proofs::Places::has_at, crate::proofs::Places::without_at))]
    pub(crate) fn remove(&mut self, number: Number) -> Result<(), Refused>
        ensures result { result ≡ when (has (stored self.old) number.0) }
        ensures after { stored self.new ≡ (if has (stored self.old) number.0 then without (stored self.old) number.0 else stored self.old) }
    {
        let place = self.place(number).ok_or(Refused)?;
        self.offers.remove(place);
        Ok(())
    }
}

impl OneSide for Table {
    ghost offers = { stored };

    fn count(&self) -> usize {
        self.offers.len()
    }

    fn offer(&self, place: usize) -> Option<Offer> {
        self.offers.as_slice().get(place).copied()
    }

    #[tactic(auto, using(crate::proofs::Places::some_has))]
    fn has(&self, number: Number) -> bool {
        self.place(number).is_some()
    }

    #[tactic(auto, using(crate::proofs::Places::unplaced, crate::proofs::Places::has_at, crate::proofs::Places::left_at, crate::proofs::Places::taken_at, crate::proofs::Places::lowered_at, crate::proofs::Places::refill_set))]
    fn take(&mut self, lot: Lot, number: Number, amount: Quantity) -> Result<(), Refused> {
        let place = self.place(number).ok_or(Refused)?;
        let left = self.offers[place].left;
        if !whole_lots(lot, amount) || left < amount {
            return Err(Refused);
        }
        if left == amount {
            self.offers.remove(place);
        } else {
            self.offers[place].left.0 -= amount.0;
        }
        Ok(())
    }
}
