// What a turn reads and changes, and what is asked of it.
ghost use Rattle.std.specs.Prelude.{◌≡◌};
ghost use Rattle.rules.specs.Offers.{taker_of};

use draw::Taker;
use rules::{Answer, Request};
use units::{Price, Side};

// What requests draw on: a book and the living answers.
#[derive(Drop)]
pub struct Supply<'a, B> {
    pub book: &'a B,
    pub answers: &'a [Answer],
}

// The book, the open requests and the living answers, each lent whole. That the answers stand by number, and that the lists which
// come with a call have room, its calls require: a fact of the seat itself would have to hold at every write through it.
// That the places stay the same, its calls promise: it ties the seat after a call to the seat before.
#[derive(Drop)]
pub struct Seat<'a, B> {
    pub book: &'a mut B,
    pub requests: &'a mut [Request],
    pub answers: &'a mut [Answer],
}

impl<'a, B> Seat<'a, B> {
    // What requests draw on, as it stands.
    pub(crate) fn supply(&self) -> Supply<B>
        ensures book { result.book.now ≡ self.now.book.now }
        ensures answers { result.answers.now ≡ self.now.answers.now }
    {
        Supply {
            book: self.book,
            answers: self.answers,
        }
    }
}

// A request, the side that it is on, and the price that it trades within.
#[derive(Clone, Copy, Debug, PartialEq, Eq)]
pub struct Wanted {
    pub request: Request,
    pub side: Side,
    pub limit: Price,
}

impl Wanted {
    // The request, where it is on the side.
    pub(crate) fn taker(self) -> Taker
        ensures { result ≡ taker_of self.request self.side }
    {
        Taker {
            number: self.request.number,
            firm: self.request.firm,
            side: self.side,
        }
    }
}
