// What a draw takes from one offer.
ghost use Rattle.std.specs.Prelude.{◌≡◌};
ghost use Rattle.draw.specs.Draws.{poured};

use super::Eligible;
use units::{Number, Quantity};

// What the draw that empties ranked offers until `n` units are reached takes from a number, which is nothing where none of them has it.
#[tactic(auto, using(crate::proofs::Steps::pouring))]
pub fn share(offers: &[Eligible], n: Quantity, number: Number) -> Quantity
    ensures { result.0 ≡ poured offers.now n.0 number.0 }
{
    let mut rest = n;
    for o in offers {
        let units = rest.min(o.left);
        if o.number == number {
            return units;
        }
        rest = Quantity(rest.0 - units.0);
    }
    Quantity(0)
}
