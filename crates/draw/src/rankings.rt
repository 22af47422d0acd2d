// The rankings of offers: one text for both sides, by what is better to a side. What comes after the price is compared
// only where all before it ties, since the price mostly decides.
ghost use Rattle.std.specs.Prelude.{◌≡◌};
ghost use Rattle.std.specs.Ordering.{is_lt, is_gt};
ghost use Rattle.draw.specs.Rankings.{better_price, request_before, trading_before};
ghost use Rattle.draw.specs.Orders.{request_order, trading_order};

use super::Eligible;
use ranked::Ranking;
use std::cmp::Ordering;
use units::Side;

// How the price of `a` stands to that of `b` for who is on `side`: the better one comes first.
fn by_price(side: Side, a: &Eligible, b: &Eligible) -> Ordering
    ensures first { is_lt result ≡ better_price side a.now b.now }
    ensures behind { is_gt result ≡ better_price side b.now a.now }
{
    match side {
        Side::Buy => a.price.cmp(&b.price),
        Side::Sell => b.price.cmp(&a.price),
    }
}

// The order in which a request on `side` draws: the better price, then answers before book offers, then more left, then the lower number.
#[derive(Clone, Copy, Debug, PartialEq, Eq)]
pub struct RequestRanking {
    pub side: Side,
}

impl Ranking<Eligible> for RequestRanking {
    ghost before = { λ r. request_before r.side };

    ghost order = { λ s. request_order s.side };

    fn precedes(&self, a: &Eligible, b: &Eligible) -> bool {
        by_price(self.side, a, b)
            .then_with(|| b.is_answer.cmp(&a.is_answer))
            .then_with(|| b.left.cmp(&a.left))
            .then_with(|| a.number.cmp(&b.number))
            .is_lt()
    }
}

// The order in which an order that enters on `side` trades: the better price, then the lower number.
#[derive(Clone, Copy, Debug, PartialEq, Eq)]
pub struct TradingRanking {
    pub side: Side,
}

impl Ranking<Eligible> for TradingRanking {
    ghost before = { λ r. trading_before r.side };

    ghost order = { λ s. trading_order s.side };

    fn precedes(&self, a: &Eligible, b: &Eligible) -> bool {
        let by_number = || a.number.cmp(&b.number);
        by_price(self.side, a, b).then_with(by_number).is_lt()
    }
}
