// The ranges of the units, and the checks that a value lies in its range.
ghost use Rattle.std.specs.Prelude.{◌≡◌, ◌*◌, Bool, ◌&&◌};
ghost use Rattle.std.specs.Ordering.{partial_le};
ghost use Rattle.std.proofs.Common.{rules};
ghost use Rattle.units.specs.Ranges.{is_price, is_quantity, is_lot, is_member, is_number, is_time, is_delay, is_min_firms, is_whole, WholeMeansMultiple};

use super::{Delay, Firm, FirmCount, Lot, Money, Number, Price, Quantity, Time};

// A unit that has a range: from the least to the most, both included.
pub trait Ranged: Copy + Ord {
    ghost LEAST: { Self };

    ghost MOST: { Self };

    // whether a value lies in the range
    ghost ranged: { Self → Bool };

    const LEAST: Self;

    const MOST: Self;

    final fn in_range(self) -> bool
        ensures { result ≡ ranged self }
    {
        Self::LEAST <= self && self <= Self::MOST
    }

    ghost bounds: { (x : Self) → ranged x ≡ (partial_le Self.PartialOrd.partial_cmp LEAST x && partial_le Self.PartialOrd.partial_cmp x MOST) };
}

impl Ranged for Price {
    ghost LEAST = { record { 0 = 1 } };

    ghost MOST = { record { 0 = 1000000000 } };

    ghost ranged = { λ x. is_price x.0 };

    ghost bounds = { Prim.search rules };

    const LEAST: Price = Price(1);

    const MOST: Price = Price(1_000_000_000);
}

impl Ranged for Lot {
    ghost LEAST = { record { 0 = 1 } };

    ghost MOST = { record { 0 = 1000 } };

    ghost ranged = { λ x. is_lot x.0 };

    ghost bounds = { Prim.search rules };

    const LEAST: Lot = Lot(1);

    const MOST: Lot = Lot(1_000);
}

impl Ranged for Number {
    ghost LEAST = { record { 0 = 1 } };

    ghost MOST = { record { 0 = 2000000 } };

    ghost ranged = { λ x. is_number x.0 };

    ghost bounds = { Prim.search rules };

    const LEAST: Number = Number(1);

    const MOST: Number = Number(2_000_000);
}

impl Ranged for Time {
    ghost LEAST = { record { 0 = 0 } };

    ghost MOST = { record { 0 = 86400000 } };

    ghost ranged = { λ x. is_time x.0 };

    ghost bounds = { Prim.search rules };

    const LEAST: Time = Time(0);

    const MOST: Time = Time(86_400_000);
}

impl Ranged for Delay {
    ghost LEAST = { record { 0 = 1 } };

    ghost MOST = { record { 0 = 180 } };

    ghost ranged = { λ x. is_delay x.0 };

    ghost bounds = { Prim.search rules };

    const LEAST: Delay = Delay(1);

    const MOST: Delay = Delay(180);
}

// How many different firms a request may ask for at least.
impl Ranged for FirmCount {
    ghost LEAST = { record { 0 = 0 } };

    ghost MOST = { record { 0 = 64 } };

    ghost ranged = { λ x. is_min_firms x.0 };

    ghost bounds = { Prim.search rules };

    const LEAST: FirmCount = FirmCount(0);

    const MOST: FirmCount = FirmCount(64);
}

impl Quantity {
    // The least and the most of a quantity in range; it is of whole lots besides.
    pub const LEAST: Quantity = Quantity(1);

    pub const MOST: Quantity = Quantity(1_000_000);

    // In range, and a multiple of the lot.
    pub fn in_range(self, lot: Lot) -> bool
        ensures { result ≡ is_quantity lot.0 self.0 }
    {
        Quantity::LEAST <= self && self <= Quantity::MOST && lot.divides(self)
    }
}

impl Price {
    // What so many units cost at this price.
    pub fn times(self, quantity: Quantity) -> Money
        ensures { result.0 ≡ self.0 * quantity.0 }
    {
        Money(u64::from(self.0) * u64::from(quantity.0))
    }
}

impl Lot {
    // The lot check: whether a quantity is a multiple of the lot, 0 among them; of the lot 0, only 0 is.
    pub fn divides(self, quantity: Quantity) -> bool
        ensures value { result ≡ is_whole self.0 quantity.0 }
        ensures meaning { WholeMeansMultiple }
    {
        quantity.0.is_multiple_of(self.0)
    }
}

impl Firm {
    // The first firm that is a member.
    pub const LEAST_MEMBER: Firm = Firm(1);

    // Whether this is a member, and not the house.
    pub fn is_member(self) -> bool
        ensures { result ≡ is_member self.0 }
    {
        Firm::LEAST_MEMBER <= self
    }
}
