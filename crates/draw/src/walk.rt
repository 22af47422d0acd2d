// The walk over ranked offers: size and money of what trades, in one pass.
// The two stay a tuple, as a rule of the project has it: statuses and confirmations take it apart.
ghost use Rattle.std.specs.Prelude.{◌≡◌, ◌+◌, ◌-◌, ◌*◌, ◌^◌, ◌<◌, ◌≤◌, min, true};
ghost use Rattle.std.specs.List.{AllByRecursion};
ghost use Rattle.units.specs.Ranges.{is_price, is_quantity, is_lot};
ghost use Rattle.draw.specs.Sides.{no_worse};
ghost use Rattle.ranked.specs.Lists.{Apart};
ghost use Rattle.draw.specs.Offers.{Sound, named};
ghost use Rattle.draw.specs.Draws.{totals, poured};
ghost use Rattle.draw.specs.Walk.{gap, room, part, walk};

use super::Eligible;
use units::{Lot, Money, Price, Quantity, Side};

// Whether money `a` is no worse than `b` to that side.
fn no_worse(side: Side, a: Money, b: Money) -> bool
    ensures { result ≡ no_worse side a.0 b.0 }
{
    match side {
        Side::Buy => a <= b,
        Side::Sell => b <= a,
    }
}

// Whether size and money are within the price: exact in money, never by a rounded price.
fn is_within(side: Side, price: Price, totals: (Quantity, Money)) -> bool
    ensures { result ≡ no_worse side totals.1.0 (price.0 * totals.0.0) }
{
    let (size, money) = totals;
    no_worse(side, money, price.times(size))
}

// What may still be wanted of an offer.
fn room(offer: &Eligible, most: Quantity, size: Quantity) -> Quantity
    requires { size.0 ≤ most.0 }
    ensures { result.0 ≡ room most.0 size.0 offer.now }
{
    offer.left.min(Quantity(most.0 - size.0))
}

// Size and money with so many units more at that price.
fn with(totals: (Quantity, Money), price: Price, units: Quantity) -> (Quantity, Money)
    requires size { totals.0.0 + units.0 < 2 ^ 32 }
    requires money { totals.1.0 + price.0 * units.0 < 2 ^ 64 }
    ensures size { result.0.0 ≡ totals.0.0 + units.0 }
    ensures money { result.1.0 ≡ totals.1.0 + price.0 * units.0 }
{
    let (size, money) = totals;
    (
        Quantity(size.0 + units.0),
        Money(money.0 + price.times(units).0),
    )
}

// The units, in whole lots and at a price worse than the limit, that the money saved so far pays for.
fn part(lot: Lot, limit: Price, totals: (Quantity, Money), price: Price) -> Quantity
    requires worse { 0 < lot.0 * gap price.0 limit.0 }
    requires fits { part lot.0 limit.0 totals.0.0 totals.1.0 price.0 < 2 ^ 32 }
    ensures { result.0 ≡ part lot.0 limit.0 totals.0.0 totals.1.0 price.0 }
{
    let (size, money) = totals;
    let saved = money.0.abs_diff(limit.times(size).0);
    let lots = saved / (u64::from(lot.0) * u64::from(price.0.abs_diff(limit.0)));
    Quantity((lots * u64::from(lot.0)) as u32)
}

// Whole offers while the whole stays within the price, then what still fits of the next.
pub(crate) fn walk(
    offers: &[Eligible],
    side: Side,
    lot: Lot,
    price: Price,
    most: Quantity,
) -> (Quantity, Money)
    requires lot { is_lot lot.0 ≡ true }
    requires offers { AllByRecursion (Sound lot.0) offers.now }
    requires price { is_price price.0 ≡ true }
    requires most { is_quantity lot.0 most.0 ≡ true }
    ensures size { result.0.0 ≡ (walk side lot.0 price.0 most.0 offers.now 0 0).0 }
    ensures money { result.1.0 ≡ (walk side lot.0 price.0 most.0 offers.now 0 0).1 }
{
    let mut totals = (Quantity(0), Money(0));
    for o in offers {
        let all = with(totals, o.price, room(o, most, totals.0));
        if !is_within(side, price, all) {
            return with(totals, o.price, part(lot, price, totals, o.price));
        }
        totals = all;
    }
    totals
}

// The first units of the offers in their order: `most` of them, or all there are. A loop and not a fold, since its invariant keeps the totals in range.
pub(crate) fn first_units(offers: &[Eligible], most: Quantity) -> (Quantity, Money)
    requires prices { AllByRecursion (λ o. is_price o.price.0 ≡ true) offers.now }
    requires apart { Apart named offers.now }
    requires most { most.0 ≤ 1000000 }
    ensures value { result ≡ totals offers.now (poured offers.now most.0) }
    ensures bound { result.1.0 ≤ 1000000000 * result.0.0 }
{
    let mut totals = (Quantity(0), Money(0));
    for o in offers {
        totals = with(totals, o.price, room(o, most, totals.0));
    }
    totals
}
