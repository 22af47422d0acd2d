// What a market holds beside its book: the open requests, and the living answers to them.
ghost use Rattle.std.specs.Prelude.{◌≡◌, ℕ};
ghost use Rattle.rules.specs.Offers.{from_answer};

use draw::{Answering, Offered};
use ranked::{Dated, Named};
use units::{Firm, FirmCount, Number, Price, Quantity, Side, Time};

// A provider's answer to a request.
#[derive(Clone, Copy, Debug, PartialEq, Eq)]
pub struct Answer {
    pub number: Number,
    pub request: Number,
    pub firm: Firm,
    pub side: Side,
    pub price: Price,
    pub left: Quantity,
}

// What a request asks for.
#[derive(Clone, Copy, Debug, PartialEq, Eq)]
pub enum Terms {
    // the side, which may be left open, and the minimum units: it waits for its issuer's confirmation
    Manual(Option<Side>, Quantity),
    // the side, the limit and the minimum of different firms: it trades by itself
    Automatic(Side, Price, FirmCount),
}

// An issuer's request. Its deadline may lie past the end of the day; then it never expires.
#[derive(Clone, Copy, Debug, PartialEq, Eq)]
pub struct Request {
    pub number: Number,
    pub firm: Firm,
    pub left: Quantity,
    pub deadline: Time,
    pub terms: Terms,
}

impl Named for Request {
    ghost number = { λ r. r.number.0 };
}

impl Dated for Request {
    ghost due = { λ r. r.deadline.0 };

    fn deadline(&self) -> Time {
        self.deadline
    }

    fn name(&self) -> Number {
        self.number
    }
}

impl Named for Answer {
    ghost number = { λ a. a.number.0 };
}

impl Answering for Answer {
    ghost of_firm = { λ a. a.firm.0 };

    ghost to_request = { λ a. a.request.0 };

    fn firm(&self) -> Firm {
        self.firm
    }

    fn request(&self) -> Number {
        self.request
    }
}

// An answer, as requests see it.
impl From<Answer> for Offered {
    ghost from_gives = { λ a o. o ≡ from_answer a };

    fn from(answer: Answer) -> Offered {
        Offered {
            number: answer.number,
            firm: answer.firm,
            side: answer.side,
            price: answer.price,
            left: answer.left,
            answers_to: Some(answer.request),
        }
    }
}
