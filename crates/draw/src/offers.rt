// What a request may draw on.
ghost use Rattle.std.specs.Prelude.{◌≡◌};
ghost use Rattle.draw.specs.Offers.{named, admitted, is_eligible};

use ranked::Named;
use units::{Firm, Number, Price, Quantity, Side};

// An offer of the book or a living answer, with what is left of it.
#[derive(Clone, Copy, Debug, PartialEq, Eq)]
pub struct Offered {
    pub number: Number,
    pub firm: Firm,
    pub side: Side,
    pub price: Price,
    pub left: Quantity,
    // the request that it answers, none for an offer of the book
    pub answers_to: Option<Number>,
}

// The request that draws: its number, its issuer and the side that it is on.
#[derive(Clone, Copy, Debug, PartialEq, Eq)]
pub struct Taker {
    pub number: Number,
    pub firm: Firm,
    pub side: Side,
}

// An offer that a request may draw on.
#[derive(Clone, Copy, Debug, PartialEq, Eq)]
pub struct Eligible {
    pub number: Number,
    pub firm: Firm,
    pub price: Price,
    pub left: Quantity,
    pub is_answer: bool,
}

impl Named for Eligible {
    ghost number = { named };
}

// Whether the request may draw on this offer.
fn is_eligible(taker: Taker, offered: Offered) -> bool
    ensures { result ≡ is_eligible taker offered }
{
    let open = offered
        .answers_to
        .is_none_or(|request| request == taker.number);
    offered.side == taker.side.opposite() && open
}

// What the request may draw on of an offer: the offer, or nothing.
pub fn admit(taker: Taker, offered: Offered) -> Option<Eligible>
    ensures { result ≡ admitted taker offered }
{
    if !is_eligible(taker, offered) {
        return None;
    }
    Some(Eligible {
        number: offered.number,
        firm: offered.firm,
        price: offered.price,
        left: offered.left,
        is_answer: offered.answers_to.is_some(),
    })
}
