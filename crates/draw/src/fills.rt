// The fills of a draw, written where the caller reports them.
ghost use Rattle.std.specs.Prelude.{◌≡◌, ℕ, ◌≤◌, min, map, length};
ghost use Rattle.ranked.specs.Writes.{WritesFront};
ghost use Rattle.draw.specs.declared.fills.Fill.{Fill};
ghost use Rattle.draw.specs.Offers.{Pourable};
ghost use Rattle.draw.specs.Fills.{fills, traded, FillsUp, FairConfirmation, FairTurn};

use super::Eligible;
use units::{Money, Number, Price, Quantity};

// Units taken from an offer, at its price.
#[derive(Clone, Copy, Debug, PartialEq, Eq)]
pub struct Fill {
    pub maker: Number,
    pub price: Price,
    pub quantity: Quantity,
}

// A record that tells a fill and who took it.
pub trait TellsFill: Sized {
    ghost tells: { ℕ → Fill → Self };

    fn of_fill(taker: Number, fill: Fill) -> Self
        ensures { result ≡ tells taker.0 fill };
}

// What is filled of an offer where so many units are still to be taken.
fn fill_of(offer: &Eligible, rest: Quantity) -> Fill
    ensures { result ≡ record { maker = offer.now.number; price = offer.now.price; quantity = record { 0 = min rest.0 offer.now.left.0 } } }
{
    Fill {
        maker: offer.number,
        price: offer.price,
        quantity: rest.min(offer.left),
    }
}

// Writes the fills that empty ranked offers until `n` units are reached, over the front of `out`; answers how many.
pub fn pour<W: TellsFill + Copy>(
    offers: &[Eligible],
    taker: Number,
    n: Quantity,
    out: &mut [W],
) -> usize
    requires places { length offers.now ≤ length out.old }
    requires offers { Pourable offers.now }
    ensures written { WritesFront out.old out.new result (map (W.tells taker.0) (fills offers.now n.0)) }
    ensures draw { FillsUp offers.now n.0 (fills offers.now n.0) }
    ensures few { result ≤ length offers.now }
{
    let mut rest = n;
    for (count, offer) in offers.iter().enumerate() {
        if rest.0 == 0 {
            return count;
        }
        let fill = fill_of(offer, rest);
        out[count] = W::of_fill(taker, fill);
        rest = Quantity(rest.0 - fill.quantity.0);
    }
    offers.len()
}

// Carries out a decision on ranked offers: writes its fills over the front of `out`, none where nothing was found; answers how many.
#[tactic(auto, using(crate::proofs::Fairness::fair_confirmation, crate::proofs::Fairness::fair_turn))]
pub fn execute<W: TellsFill + Copy>(
    offers: &[Eligible],
    found: Option<(Quantity, Money)>,
    taker: Number,
    out: &mut [W],
) -> usize
    requires places { length offers.now ≤ length out.old }
    requires offers { Pourable offers.now }
    ensures written { WritesFront out.old out.new result (map (W.tells taker.0) (traded offers.now found)) }
    ensures confirmed { FairConfirmation offers.now found }
    ensures served { FairTurn offers.now found }
    ensures few { result ≤ length offers.now }
{
    match found {
        Some((size, _)) => pour(offers, taker, size, out),
        None => 0,
    }
}
