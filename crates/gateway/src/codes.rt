// The bytes that stand for a kind and for a side in the header of a frame.
ghost use Rattle.std.specs.Prelude.{◌≡◌, ◌<◌, IfErr, MatchResult};
ghost use Rattle.gateway.specs.Frames.{side_code, kind_code, kind_of};
ghost use Rattle.units.specs.declared.refusal.Refusal.TheVariants as refusals;

use super::messages::Kind;
use units::{Refusal, Side};

// The code of a kind.
impl From<Kind> for u8 {
    ghost from_gives = { λ k n. n ≡ kind_code k };

    fn from(kind: Kind) -> u8 {
        match kind {
            Kind::Order => 1,
            Kind::Withdrawal => 2,
            Kind::ManualRequest => 3,
            Kind::AutoRequest => 4,
            Kind::Answer => 5,
            Kind::Confirmation => 6,
            Kind::Clock => 7,
        }
    }
}

// The kind of a code; orders are there only where the book is open, so that a code alone does not tell, and this is no `TryFrom`.
pub(super) fn kind_of(code: u8, orders: bool) -> Option<Kind>
    ensures { result ≡ kind_of orders code }
{
    match code {
        1 if orders => Some(Kind::Order),
        2 => Some(Kind::Withdrawal),
        3 => Some(Kind::ManualRequest),
        4 => Some(Kind::AutoRequest),
        5 => Some(Kind::Answer),
        6 => Some(Kind::Confirmation),
        7 => Some(Kind::Clock),
        _ => None,
    }
}

// The code of a side, or of none. Neither an `Option` nor a byte is a type of this crate, so that this and the way back are functions, and no `From`.
pub(super) fn side_code(side: Option<Side>) -> u8
    ensures { result ≡ side_code side }
{
    match side {
        None => 0,
        Some(Side::Buy) => 1,
        Some(Side::Sell) => 2,
    }
}

// The side of a code, which may be none, or the refusal of a code above those of the sides.
pub(super) fn side_of(code: u8) -> Result<Option<Side>, Refusal>
    ensures side { MatchResult result (λ s. side_code s ≡ code) (λ _. 2 < code) }
    ensures refusal { IfErr result (λ r. r ≡ refusals.SideCode) }
{
    match code {
        0 => Ok(None),
        1 => Ok(Some(Side::Buy)),
        2 => Ok(Some(Side::Sell)),
        _ => Err(Refusal::SideCode),
    }
}
