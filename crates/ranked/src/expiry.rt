// The order in which what has a deadline expires.
ghost use Rattle.std.specs.Prelude.{◌≡◌, ℕ};
ghost use Rattle.ranked.specs.Orders.{expiry_before};
ghost use Rattle.std.proofs.Common.{rules};

use super::{Named, Ranking};
use units::{Number, Time};

// A record that has a deadline, beside the number that names it.
pub trait Dated: Named {
    ghost due: { Self → ℕ };

    fn deadline(&self) -> Time
        ensures { result.0 ≡ due self.now };

    fn name(&self) -> Number
        ensures { result.0 ≡ Self.Named.number self.now };
}

// The earlier deadline first, then the lower number.
#[derive(Clone, Copy)]
pub struct ExpiryRanking;

impl<T: Dated> Ranking<T> for ExpiryRanking {
    ghost before = { λ _. expiry_before T.Dated.due T.Named.number };

    ghost order = { Prim.search rules };

    fn precedes(&self, a: &T, b: &T) -> bool {
        let (first, second) = (a.deadline(), b.deadline());
        first < second || (first == second && a.name() < b.name())
    }
}
