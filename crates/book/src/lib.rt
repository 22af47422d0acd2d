// Offers of one instrument, and what every kind of book of them promises.
#![tactic(auto)]

ghost use Rattle.std.specs.Prelude.{◌≡◌, ℕ, ◌≤◌, false, length, slice_get, is_ok};
ghost use Rattle.book.specs.Meaning.{Meaning, in_range, lots, side_of, take_result, after_take, enter_result, after_enter, remove_result, after_remove};
ghost use Rattle.book.specs.Laws.{Sound};
ghost use Rattle.book.specs.Words.{TakesInWords, RemovalsInWords};
ghost use Rattle.book.specs.Making.{refusal_of, fill_result, filled};

use thiserror::Error;
use units::{Firm, Lot, Number, OpenOrders, Orders, Price, Quantity, Ranged, Refusal, Side};

mod iter;
mod sides;

pub use iter::{SideOffers, offers};
pub use sides::{OneSide, Sides};

// The most offers a side that any kind of book may name.
pub const MOST_A_SIDE: usize = 128;

#[derive(Clone, Copy, Debug, PartialEq, Eq)]
pub struct Offer {
    pub number: Number,
    pub firm: Firm,
    pub price: Price,
    pub left: Quantity,
}

impl Offer {
    // In range, the firm by its type, and what is left a quantity of the lot.
    pub fn in_range(self, lot: Lot) -> bool
        ensures { result ≡ in_range lot.0 self }
    {
        self.number.in_range() && self.price.in_range() && self.left.in_range(lot)
    }
}

// An offer of nothing: what a place holds that no offer fills.
impl Default for Offer {
    ghost is_default = { λ o. o.left.0 ≡ 0 };

    fn default() -> Offer {
        Offer {
            number: Number(0),
            firm: Firm(0),
            price: Price(0),
            left: Quantity(0),
        }
    }
}

// The book turned a take, an entry or a removal away, and is as it was.
#[derive(Clone, Copy, Debug, PartialEq, Eq, Error)]
#[error("the book refuses this")]
pub struct Refused;

// Why a book is not made: the place it was to fill is as it was.
#[derive(Clone, Copy, Debug, PartialEq, Eq, Error)]
pub enum MakeError {
    #[error("a rung's price is out of range")]
    Price,
    #[error("the lot is out of range, or the rungs' quantity is none of that lot")]
    Quantity,
    #[error("over 64 rungs")]
    Full,
}

// The refusal that stands for it, with its number.
impl From<MakeError> for Refusal {
    ghost from_gives = { λ e r. r ≡ refusal_of e };

    fn from(error: MakeError) -> Refusal {
        match error {
            MakeError::Price => Refusal::Price,
            MakeError::Quantity => Refusal::Quantity,
            MakeError::Full => Refusal::Full,
        }
    }
}

// Puts a book that was made into its place, which a refusal leaves as it was.
pub fn fill<B: Drop>(place: &mut Option<B>, made: Result<B, MakeError>) -> Result<(), MakeError>
    ensures result { result ≡ fill_result made }
    ensures after { place.new ≡ filled made place.old }
    ensures unchanged { is_ok result ≡ false → place.new ≡ place.old }
{
    *place = Some(made?);
    Ok(())
}

// Whether an amount is whole lots, at least one: what a take may ask for.
pub fn whole_lots(lot: Lot, amount: Quantity) -> bool
    ensures { result ≡ lots lot.0 amount.0 }
{
    Quantity(0) < amount && lot.divides(amount)
}

// A kind of book: everything above relies on these promises alone.
pub trait Book {
    // Whether the kind takes new orders: `OpenOrders` or `NoOrders`.
    type Orders: Orders;

    // The offers to buy, the offers to sell and the lot.
    ghost means: { Self → Meaning };

    ghost MOST: { ℕ };

    // The most offers of a side.
    const MOST: usize;

    fn lot(&self) -> Lot
        ensures { result.0 ≡ (means self.now).lot };

    fn count(&self, side: Side) -> usize
        ensures { result ≡ length (side_of (means self.now) side) };

    // The offer at a place of its side, from 0; none from the side's count on.
    fn offer(&self, side: Side, place: usize) -> Option<Offer>
        ensures { result ≡ slice_get (side_of (means self.now) side) place };

    // Takes an amount from the offer of the number, or is refused and changes nothing.
    fn take(&mut self, side: Side, number: Number, amount: Quantity) -> Result<(), Refused>
        ensures result { result ≡ take_result (means self.old) side number.0 amount.0 }
        ensures after { means self.new ≡ after_take (means self.old) side number.0 amount.0 };

    ghost few: { MOST ≤ 128 };

    ghost lawful: { (b : Self) → Sound MOST (means b) };

    ghost takes: { TakesInWords };
}

// A book that also takes new orders.
pub trait OpenBook: Book<Orders = OpenOrders> {
    // Puts an offer at the end of its side, or is refused and changes nothing.
    fn enter(&mut self, side: Side, offer: Offer) -> Result<(), Refused>
        ensures result { result ≡ enter_result Self.Book.MOST (Self.Book.means self.old) side offer }
        ensures after { Self.Book.means self.new ≡ after_enter Self.Book.MOST (Self.Book.means self.old) side offer };

    // Removes the offer of the number, or is refused and changes nothing.
    fn remove(&mut self, side: Side, number: Number) -> Result<(), Refused>
        ensures result { result ≡ remove_result (Self.Book.means self.old) side number.0 }
        ensures after { Self.Book.means self.new ≡ after_remove (Self.Book.means self.old) side number.0 };

    ghost removals: { RemovalsInWords };
}
