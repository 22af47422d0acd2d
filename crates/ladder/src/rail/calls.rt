// Raising a rail, and its answers.
ghost use Rattle.std.specs.Prelude.{◌≡◌, ◌+◌, ◌<◌, ◌≤◌, true, false, ◌++◌, drop, filter, replicate, MatchOption, slice_get, slice_index};
ghost use Rattle.std.specs.List.{enumerate_from};
ghost use Rattle.book.specs.Meaning.{has, left_of};
ghost use Rattle.ladder.specs.Rungs.{first_number, rung_price, rung, rungs_of, prices_in_range, quantity_in_range, stands};
ghost use Rattle.ladder.specs.Rails.{rail_offers};

use super::Rail;
use crate::rungs::{MOST_RUNGS, Rungs, Step};
use book::{Offer, OneSide, Refused, whole_lots};
use units::{Firm, Lot, Number, Price, Quantity, Side};

// Where the numbers of a side's rungs begin, 64 for each side: no code of a kind.
fn first_number(side: Side) -> u32
    ensures { result ≡ first_number side }
{
    match side {
        Side::Buy => 1,
        Side::Sell => 65,
    }
}

// Rung k, from 0: to buy it stands k steps below the first price, to sell k steps above.
fn rung_of(side: Side, first: Price, step: Step, k: usize, left: u32) -> Offer
    requires few { k < 64 }
    requires fits { rung_price side first.0 step.0 k ≤ 1000000000 }
    ensures { result ≡ rung side first.0 step.0 k left }
{
    let away = k as u64 * u64::from(step.0);
    let price = match side {
        Side::Buy => u64::from(first.0).saturating_sub(away),
        Side::Sell => u64::from(first.0) + away,
    };
    Offer {
        number: Number(first_number(side) + k as u32),
        firm: Firm(0),
        price: Price(price as u32),
        left: Quantity(left),
    }
}

// The same quantity on each of the first rungs, nothing on the others.
fn filled(count: usize, quantity: u32) -> [u32; MOST_RUNGS]
    requires { count ≤ 64 }
    ensures { result ≡ replicate count quantity ++ drop count (replicate 64 0) }
{
    let mut left = [0; MOST_RUNGS];
    left[..count].fill(quantity);
    left
}

impl Rail {
    pub(crate) fn raise(side: Side, lot: Lot, rungs: Rungs) -> Rail
        requires few { rungs.count ≤ 64 }
        requires prices { prices_in_range side rungs ≡ true }
        requires quantity { quantity_in_range lot.0 rungs ≡ true }
        ensures { rail_offers result ≡ rungs_of side rungs }
    {
        let left = filled(rungs.count as usize, rungs.quantity.0);
        Rail {
            side,
            first: rungs.first,
            step: rungs.step,
            left,
        }
    }

    // The rung at a place among those of which something is left, with what is left of it.
    // Written as one loop: `filter` and `nth` have a loop each, which took over half as long again.
    fn standing_at(&self, place: usize) -> Option<(usize, u32)>
        ensures { result ≡ slice_get (filter stands (enumerate_from 0 self.now.left)) place }
    {
        let mut skip = place;
        for (k, left) in self.left.iter().enumerate() {
            if *left != 0 {
                if skip == 0 {
                    return Some((k, *left));
                }
                skip -= 1;
            }
        }
        None
    }

    // The rung of the number, if something is left of it.
    #[tactic(auto, using(crate::proofs::Standing::none_below, crate::proofs::Standing::none_above, crate::proofs::Standing::gone_is))]
    fn rung(&self, number: Number) -> Option<usize>
        ensures { MatchOption result (has (rail_offers self.now) number.0 ≡ false) (λ k. (k < 64) × (first_number self.now.side + k ≡ number.0) × (0 < slice_index self.now.left k)) }
    {
        let k = number.0.checked_sub(first_number(self.side))? as usize;
        if *self.left.get(k)? == 0 {
            return None;
        }
        Some(k)
    }

    // What is left of the number, 0 where no rung has it.
    #[tactic(auto, using(crate::proofs::Standing::left_is, book::proofs::Lefts::left_none))]
    pub(crate) fn left(&self, number: Number) -> Quantity
        ensures { result.0 ≡ left_of (rail_offers self.now) number.0 }
    {
        match self.rung(number) {
            Some(k) => Quantity(self.left[k]),
            None => Quantity(0),
        }
    }
}

impl OneSide for Rail {
    ghost offers = { rail_offers };

    #[tactic(auto, using(crate::proofs::Standing::standing_count))]
    fn count(&self) -> usize {
        // a sum, which has no branch, so that the compiler adds several rungs at a time; `filter` and `count` go one by one
        self.left.iter().map(|left| usize::from(*left != 0)).sum()
    }

    #[tactic(auto, using(crate::proofs::Standing::standing_none, crate::proofs::Standing::standing_some, crate::proofs::Standing::stands_few, crate::proofs::Standing::stands_some))]
    fn offer(&self, place: usize) -> Option<Offer> {
        let (k, left) = self.standing_at(place)?;
        Some(rung_of(self.side, self.first, self.step, k, left))
    }

    #[tactic(auto, using(crate::proofs::Standing::has_is))]
    fn has(&self, number: Number) -> bool {
        self.rung(number).is_some()
    }

    #[tactic(auto, using(crate::proofs::Standing::has_is, crate::proofs::Standing::left_is, crate::proofs::Standing::lowered))]
    fn take(&mut self, lot: Lot, number: Number, amount: Quantity) -> Result<(), Refused> {
        let k = self.rung(number).ok_or(Refused)?;
        if !whole_lots(lot, amount) || self.left[k] < amount.0 {
            return Err(Refused);
        }
        self.left[k] -= amount.0;
        Ok(())
    }
}
