// What a side of a ladder is asked for, and the checks of it: none goes through the rungs, so none costs more for more of them.
ghost use Rattle.std.specs.Prelude.{◌≡◌, ◌-◌, ◌<◌, true, nat_le};
ghost use Rattle.units.specs.Ranges.{is_price};
ghost use Rattle.ladder.specs.Rungs.{rung_price, prices_in_range, quantity_in_range, EndsDecide};

use units::{Lot, Price, Quantity, Ranged, Side};

// The most rungs a side.
pub(crate) const MOST_RUNGS: usize = 64;

// Price units from one rung to the next; 0 puts all rungs at one price.
#[derive(Clone, Copy, Debug, PartialEq, Eq)]
pub struct Step(pub u32);

// So many rungs of one quantity, from the first price on, a step apart.
#[derive(Clone, Copy, Debug, PartialEq, Eq)]
pub struct Rungs {
    pub count: u32,
    pub quantity: Quantity,
    pub first: Price,
    pub step: Step,
}

impl Rungs {
    // Prices run one way from the first rung on, so the first and the last decide.
    #[tactic(auto, using(crate::proofs::Raising::ends_decide, crate::proofs::Raising::ends_first, crate::proofs::Raising::ends_last))]
    pub(crate) fn prices_in_range(self, side: Side) -> bool
        ensures value { result ≡ prices_in_range side self }
        ensures ends { EndsDecide }
    {
        if self.count == 0 {
            return true;
        }
        self.first.in_range() && self.last_in_range(side)
    }

    fn last_in_range(self, side: Side) -> bool
        requires some { 0 < self.count }
        requires first { is_price self.first.0 ≡ true }
        ensures { result ≡ is_price (rung_price side self.first.0 self.step.0 (self.count - 1)) }
    {
        let away = u64::from(self.count - 1) * u64::from(self.step.0);
        match side {
            Side::Buy => away < u64::from(self.first.0),
            Side::Sell => away <= u64::from(Price::MOST.0 - self.first.0),
        }
    }

    pub(crate) fn quantity_in_range(self, lot: Lot) -> bool
        ensures { result ≡ quantity_in_range lot.0 self }
    {
        self.count == 0 || self.quantity.in_range(lot)
    }

    pub(crate) fn are_few(self) -> bool
        ensures { result ≡ nat_le self.count 64 }
    {
        self.count as usize <= MOST_RUNGS
    }
}
