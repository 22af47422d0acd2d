// One side of a book, and a book as its two sides: what differs between the sides is which of them is meant.
ghost use Rattle.std.specs.Prelude.{◌≡◌, List, length, slice_get, if◌then◌else◌, ◌||◌};
ghost use Rattle.std.specs.Borrow.{sem};
ghost use Rattle.book.specs.declared.Offer.{Offer};
ghost use Rattle.book.specs.Meaning.{has, list_takes, taken, when, take_result, after_take};
ghost use Rattle.book.specs.Sides.{part, sides_mean, LendsPart};

use crate::{Offer, Refused};
use units::{Lot, Number, Quantity, Side};

// The offers of one side, in order.
pub trait OneSide {
    ghost offers: { Self → List Offer };

    fn count(&self) -> usize
        ensures { result ≡ length (offers self.now) };

    // The offer at a place, from 0; none from the count on.
    fn offer(&self, place: usize) -> Option<Offer>
        ensures { result ≡ slice_get (offers self.now) place };

    fn has(&self, number: Number) -> bool
        ensures { result ≡ has (offers self.now) number.0 };

    // Takes an amount of whole lots from the offer of the number, or is refused and changes nothing.
    fn take(&mut self, lot: Lot, number: Number, amount: Quantity) -> Result<(), Refused>
        ensures result { result ≡ when (list_takes lot.0 (offers self.old) number.0 amount.0) }
        ensures after { offers self.new ≡ (if list_takes lot.0 (offers self.old) number.0 amount.0 then taken (offers self.old) number.0 amount.0 else offers self.old) };
}

// Both sides of a book, of one lot. Each kind of book keeps them in a type of its own, beside its law of how many offers a side may have.
#[derive(Drop)]
pub struct Sides<S> {
    pub lot: Lot,
    pub buys: S,
    pub sells: S,
}

impl<S> Sides<S> {
    pub fn side(&self, side: Side) -> &S
        ensures { result.now ≡ part self.now side }
    {
        match side {
            Side::Buy => &self.buys,
            Side::Sell => &self.sells,
        }
    }

    pub fn side_mut(&mut self, side: Side) -> &mut S
        ensures* writes_back { sem 𝓛 (LendsPart S.row self.entry side result) }
        ensures value { result.now ≡ part self.old side }
    {
        match side {
            Side::Buy => &mut self.buys,
            Side::Sell => &mut self.sells,
        }
    }
}

impl<S: OneSide> Sides<S> {
    // Whether an offer of either side has the number.
    pub fn has(&self, number: Number) -> bool
        ensures { result ≡ has (S.offers self.now.buys) number.0 || has (S.offers self.now.sells) number.0 }
    {
        self.buys.has(number) || self.sells.has(number)
    }

    // Takes an amount from the offer of the number, or is refused and changes nothing.
    pub fn take(&mut self, side: Side, number: Number, amount: Quantity) -> Result<(), Refused>
        ensures result { result ≡ take_result (sides_mean S.offers self.old) side number.0 amount.0 }
        ensures after { sides_mean S.offers self.new ≡ after_take (sides_mean S.offers self.old) side number.0 amount.0 }
    {
        let lot = self.lot;
        self.side_mut(side).take(lot, number, amount)
    }
}
