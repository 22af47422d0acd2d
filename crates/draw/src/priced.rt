// Rankings that put the better price first: what best terms rest on.
ghost use Rattle.std.specs.Prelude.{◌≡◌, true};
ghost use Rattle.units.specs.declared.side.Side.{Side};
ghost use Rattle.draw.specs.declared.offers.Eligible.{Eligible};
ghost use Rattle.draw.specs.Rankings.{better_price};
ghost use Rattle.std.proofs.Common.{rules};

use super::{Eligible, RequestRanking};
use ranked::Ranking;
use units::Side;

// A ranking of offers that puts the better price to its side first.
pub trait OfferRanking: Ranking<Eligible> {
    ghost favours: { Self → Side };

    fn side(&self) -> Side
        ensures { result ≡ favours self.now };

    ghost better_first: { (s : Self) (x y : Eligible) → better_price (favours s) x y ≡ true → Self.Ranking.before s x y ≡ true };
}

impl OfferRanking for RequestRanking {
    ghost favours = { λ r. r.side };

    ghost better_first = { Prim.search rules };

    fn side(&self) -> Side {
        self.side
    }
}
