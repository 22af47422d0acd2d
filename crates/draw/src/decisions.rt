// Deciding what trades: one ranking of the eligible offers and one pass over them.
// What a decision takes for granted of its offers and promises of them is one word each (`Ready`, `Pourable`, `ranked`). They stay a plain slice,
// since they lie in places that the caller lends and gives on to `execute`: a struct around them would be taken apart at each call.
ghost use Rattle.std.specs.Prelude.{◌≡◌, ◌≤◌, true, not, leb, is_some, if◌then◌else◌, nat_le};
ghost use Rattle.std.specs.List.{AllByRecursion};
ghost use Rattle.units.specs.Ranges.{is_price};
ghost use Rattle.ranked.specs.Lists.{Apart, ranked};
ghost use Rattle.draw.specs.Offers.{Ready, Pourable, named};
ghost use Rattle.draw.specs.Walk.{answered};
ghost use Rattle.draw.specs.Decisions.{Confirms, Serves, Shows};

use super::walk::{first_units, walk};
use super::{Eligible, OfferRanking};
use ranked::rank;
use units::{FirmCount, Lot, Money, Price, Quantity};

// Size and money, where something was found and the minimum is reached.
fn answer(totals: (Quantity, Money), least: Quantity) -> Option<(Quantity, Money)>
    ensures { result ≡ answered least.0 (totals.0.0, totals.1.0) }
{
    let (size, _) = totals;
    if size == Quantity(0) || size < least {
        return None;
    }
    Some(totals)
}

// What a confirmation at `price` trades of the offers, which it ranks: size and money, or none where no draw is good.
pub fn decide<R: OfferRanking>(
    rule: &R,
    offers: &mut [Eligible],
    lot: Lot,
    price: Price,
    least: Quantity,
    most: Quantity,
) -> Option<(Quantity, Money)>
    requires ready { Ready lot.0 most.0 offers.old }
    requires price { is_price price.0 ≡ true }
    ensures result { Confirms (R.favours rule.now) (R.Ranking.before rule.now) lot.0 price.0 least.0 most.0 offers.old result }
    ensures order { offers.new ≡ ranked (R.Ranking.before rule.now) offers.old }
    ensures pourable { Pourable offers.new }
{
    rank(rule, offers);
    answer(walk(offers, rule.side(), lot, price, most), least)
}

// Whether living answers come from too few firms for an automatic request.
fn too_few(firms: FirmCount, least: FirmCount) -> bool
    ensures { result ≡ not (nat_le least.0 firms.0) }
{
    firms < least
}

// What a turn of an automatic request trades of the offers, where living answers to it come from so many firms. It looks at the firms first,
// since without enough of them no draw is good, and then leaves the offers as they came.
#[tactic(auto, using(crate::proofs::Decided::ready_pourable))]
pub fn decide_automatic<R: OfferRanking>(
    rule: &R,
    offers: &mut [Eligible],
    lot: Lot,
    limit: Price,
    quantity: Quantity,
    least_firms: FirmCount,
    firms: FirmCount,
) -> Option<(Quantity, Money)>
    requires ready { Ready lot.0 quantity.0 offers.old }
    requires price { is_price limit.0 ≡ true }
    ensures result { Serves (R.favours rule.now) (R.Ranking.before rule.now) lot.0 limit.0 quantity.0 least_firms.0 firms.0 offers.old result }
    ensures order { offers.new ≡ (if leb least_firms.0 firms.0 then ranked (R.Ranking.before rule.now) offers.old else offers.old) }
    ensures found { is_some result ≡ true → offers.new ≡ ranked (R.Ranking.before rule.now) offers.old }
    ensures pourable { Pourable offers.new }
{
    if too_few(firms, least_firms) {
        return None;
    }
    decide(rule, offers, lot, limit, quantity, quantity)
}

// Size and money of a status of the offers, which it ranks: of the quantity, or of all there is, without a limit.
pub fn total_status<R: OfferRanking>(
    rule: &R,
    offers: &mut [Eligible],
    quantity: Quantity,
) -> (Quantity, Money)
    requires prices { AllByRecursion (λ o. is_price o.price.0 ≡ true) offers.old }
    requires apart { Apart named offers.old }
    requires quantity { quantity.0 ≤ 1000000 }
    ensures result { Shows (R.favours rule.now) (R.Ranking.before rule.now) quantity.0 offers.old result }
    ensures order { offers.new ≡ ranked (R.Ranking.before rule.now) offers.old }
{
    rank(rule, offers);
    first_units(offers, quantity)
}
