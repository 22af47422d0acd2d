// Reading a frame.
ghost use Rattle.std.specs.List.{enumerate_from};
ghost use Rattle.std.specs.Prelude.{position, not, ℕ, ◌≡◌, ◌+◌, ◌<◌, ◌≤◌, true, ◌||◌, ◌∷◌, length, take, IfOk, Err, MatchOption, ◌==◌, slice_index};
ghost use Rattle.gateway.specs.declared.messages.Kind.TheVariants as kinds;
ghost use Rattle.gateway.specs.Frames.{side_code, kind_code, kind_of, uses_of, used_at, allowed_at, first_stray, clean_fields, field_at, meaning, fields_in, answer, decoded, encoded};
ghost use Rattle.gateway.specs.Laws.{Firsts};

use super::codes::{kind_of, side_of};
use super::faults::Fault;
use super::messages::{FRAME, FRONT, Kind, MINIMUM, Message, NUMBER, PRICE, QUANTITY, TIME, Uses};
use units::{Delay, Firm, FirmCount, Number, Orders, Price, Quantity, Refusal, Side, Time};

// The four-byte little-endian field at its place, which is no length of the list.
fn field(bytes: &[u8], at: usize) -> u32
    requires { at + 4 ≤ length bytes.now }
    ensures { result ≡ field_at bytes.now at }
{
    u32::from_le_bytes([bytes[at], bytes[at + 1], bytes[at + 2], bytes[at + 3]])
}

fn takes_orders<O: Orders>() -> bool
    ensures { result ≡ O.Orders.taken }
{
    O::permission().is_some()
}

const NO_FIELD: Uses = Uses {
    firm: false,
    side: false,
    number: false,
    price: false,
    quantity: false,
    minimum: false,
    time: false,
};

// The table of fields.
fn uses_of(kind: Kind) -> Uses
    ensures { result ≡ uses_of kind }
{
    match kind {
        Kind::Order => Uses {
            firm: true,
            side: true,
            price: true,
            quantity: true,
            ..NO_FIELD
        },
        Kind::Withdrawal => Uses {
            firm: true,
            number: true,
            ..NO_FIELD
        },
        Kind::ManualRequest => Uses {
            firm: true,
            side: true,
            quantity: true,
            minimum: true,
            time: true,
            ..NO_FIELD
        },
        Kind::AutoRequest => Uses {
            firm: true,
            side: true,
            price: true,
            quantity: true,
            minimum: true,
            time: true,
            ..NO_FIELD
        },
        Kind::Answer => Uses {
            firm: true,
            side: true,
            number: true,
            price: true,
            quantity: true,
            ..NO_FIELD
        },
        Kind::Confirmation => Uses {
            firm: true,
            side: true,
            number: true,
            price: true,
            ..NO_FIELD
        },
        Kind::Clock => Uses {
            time: true,
            ..NO_FIELD
        },
    }
}

// Whether the byte at a place belongs to a field that is used.
fn used_at(uses: Uses, place: usize) -> bool
    ensures { result ≡ used_at uses place }
{
    match place {
        0 => true,
        1 => uses.firm,
        2 => uses.side,
        3 => false,
        NUMBER..PRICE => uses.number,
        PRICE..QUANTITY => uses.price,
        QUANTITY..MINIMUM => uses.quantity,
        MINIMUM..TIME => uses.minimum,
        TIME..FRONT => uses.time,
        _ => true,
    }
}

// Whether a byte may stand at a place.
fn allowed(uses: Uses, place: usize, byte: u8) -> bool
    ensures { result ≡ allowed_at uses place byte }
{
    used_at(uses, place) || byte == 0
}

// The first byte that is not zero and belongs to no used field.
fn first_stray(uses: Uses, bytes: &[u8]) -> Option<usize>
    ensures { result ≡ position (λ (x : ℕ × ℕ). not (allowed_at uses x.0 x.1)) (enumerate_from 0 bytes.now) }
{
    bytes
        .iter()
        .enumerate()
        .position(|(place, byte)| !allowed(uses, place, *byte))
}

// Whether a field may hold a value: it is used, or the value is zero.
fn is_blank(used: bool, value: u32) -> bool
    ensures { result ≡ (used || value == 0) }
{
    used || value == 0
}

// Whether no byte is stray, told from whole fields.
fn is_clean(uses: Uses, frame: &[u8; FRAME]) -> bool
    ensures { result ≡ clean_fields uses frame.now }
{
    let header = is_blank(uses.firm, u32::from(frame[1]))
        & is_blank(uses.side, u32::from(frame[2]))
        & (frame[3] == 0);
    let front = is_blank(uses.number, field(frame, NUMBER))
        & is_blank(uses.price, field(frame, PRICE))
        & is_blank(uses.quantity, field(frame, QUANTITY));
    header
        & front
        & is_blank(uses.minimum, field(frame, MINIMUM))
        & is_blank(uses.time, field(frame, TIME))
}

// The first stray byte of a frame. Only where there is one are its bytes looked at one by one.
#[tactic(auto, using(crate::proofs::Stray::clean_none))]
fn stray_in(uses: Uses, frame: &[u8; FRAME]) -> Option<usize>
    ensures { result ≡ first_stray uses (take 24 frame.now) 0 }
{
    if is_clean(uses, frame) {
        return None;
    }
    first_stray(uses, &frame[..FRONT])
}

// The message of a kind and a side, from its frame.
fn build<O: Orders>(kind: Kind, side: Option<Side>, frame: &[u8; FRAME]) -> Message<'_, O>
    requires permitted { kind ≡ kinds.Order → O.Orders.taken ≡ true }
    requires sided { side_code side ≡ slice_index frame.now 2 }
    ensures { meaning result ≡ fields_in kind frame.now }
{
    let firm = Firm(frame[1]);
    let reference = &frame[FRONT..];
    match kind {
        Kind::Order => match O::permission() {
            Some(permission) => Message::Order {
                permission,
                firm,
                side,
                price: Price(field(frame, PRICE)),
                quantity: Quantity(field(frame, QUANTITY)),
                reference,
            },
            None => unreachable(),
        },
        Kind::Withdrawal => Message::Withdrawal {
            firm,
            number: Number(field(frame, NUMBER)),
            reference,
        },
        Kind::ManualRequest => Message::ManualRequest {
            firm,
            side,
            quantity: Quantity(field(frame, QUANTITY)),
            min_units: Quantity(field(frame, MINIMUM)),
            delay: Delay(field(frame, TIME)),
            reference,
        },
        Kind::AutoRequest => Message::AutoRequest {
            firm,
            side,
            limit: Price(field(frame, PRICE)),
            quantity: Quantity(field(frame, QUANTITY)),
            min_firms: FirmCount(field(frame, MINIMUM)),
            delay: Delay(field(frame, TIME)),
            reference,
        },
        Kind::Answer => Message::Answer {
            firm,
            side,
            request: Number(field(frame, NUMBER)),
            price: Price(field(frame, PRICE)),
            quantity: Quantity(field(frame, QUANTITY)),
            reference,
        },
        Kind::Confirmation => Message::Confirmation {
            firm,
            side,
            request: Number(field(frame, NUMBER)),
            price: Price(field(frame, PRICE)),
            reference,
        },
        Kind::Clock => Message::Clock {
            time: Time(field(frame, TIME)),
            reference,
        },
    }
}

// The message of a frame that stands at a place in its file, or the first reason to refuse it. What is not of 32 bytes is no frame.
// Over an open book, `read::<OpenOrders>`, it may be an order; over any other, `read::<NoOrders>`, there is no such message.
pub fn read<O: Orders>(frame: &[u8], place: usize) -> Result<Message<'_, O>, Fault>
    ensures result { answer result ≡ decoded O.Orders.taken place frame.now }
    ensures rewrites { IfOk result (λ m. encoded (meaning m) ≡ frame.now) }
    ensures firsts { Firsts }
{
    let frame = <&[u8; FRAME]>::try_from(frame).map_err(|_| Fault::new(Refusal::Length, place, 0))?;
    let kind = kind_of(frame[0], takes_orders::<O>()).ok_or(Fault::new(Refusal::Kind, place, 0))?;
    // By hand: what is found is the stray byte, and none is the good case, which `?` and `ok_or` take the other way round.
    if let Some(byte) = stray_in(uses_of(kind), frame) {
        return Err(Fault::new(Refusal::Stray, place, byte));
    }
    let side = side_of(frame[2]).map_err(|refusal| Fault::new(refusal, place, 2))?;
    Ok(build(kind, side, frame))
}
