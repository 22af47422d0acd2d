// Writing the frame of a message.
ghost use Rattle.std.specs.Prelude.{◌≡◌, ℕ, length, Ok};
ghost use Rattle.gateway.specs.Frames.{kind_code, meaning, plain, front, encoded, decoded, write_answer, written_over};

use super::codes::side_code;
use super::faults::Fault;
use super::messages::{FRAME, FRONT, Kind, Message, REFERENCE};
use units::{Firm, Orders, Refusal, Side};

// A message by the fields of its frame, those that its kind does not use at 0. The numbers are bare, since some of them
// are of one unit in one kind and of another in the next.
#[derive(Clone, Copy)]
pub struct Layout<'a> {
    pub kind: Kind,
    pub firm: Firm,
    pub side: Option<Side>,
    pub number: u32,
    pub price: u32,
    pub quantity: u32,
    pub minimum: u32,
    pub time: u32,
    pub reference: &'a [u8],
}

// The layout of a message that uses no field but its reference.
fn blank(kind: Kind, reference: &[u8]) -> Layout<'_>
    ensures { plain result ≡ record { kind = kind_code kind; firm = 0; side = 0; number = 0; price = 0; quantity = 0; minimum = 0; time = 0; reference = reference.now } }
{
    Layout {
        kind,
        firm: Firm(0),
        side: None,
        number: 0,
        price: 0,
        quantity: 0,
        minimum: 0,
        time: 0,
        reference,
    }
}

fn lay_out<'a, O: Orders>(message: &Message<'a, O>) -> Layout<'a>
    ensures { plain result ≡ meaning message.now }
{
    match *message {
        Message::Order {
            firm,
            side,
            price,
            quantity,
            reference,
            ..
        } => Layout {
            firm,
            side,
            price: price.0,
            quantity: quantity.0,
            ..blank(Kind::Order, reference)
        },
        Message::Withdrawal {
            firm,
            number,
            reference,
        } => Layout {
            firm,
            number: number.0,
            ..blank(Kind::Withdrawal, reference)
        },
        Message::ManualRequest {
            firm,
            side,
            quantity,
            min_units,
            delay,
            reference,
        } => Layout {
            firm,
            side,
            quantity: quantity.0,
            minimum: min_units.0,
            time: delay.0,
            ..blank(Kind::ManualRequest, reference)
        },
        Message::AutoRequest {
            firm,
            side,
            limit,
            quantity,
            min_firms,
            delay,
            reference,
        } => Layout {
            firm,
            side,
            price: limit.0,
            quantity: quantity.0,
            minimum: min_firms.0,
            time: delay.0,
            ..blank(Kind::AutoRequest, reference)
        },
        Message::Answer {
            firm,
            side,
            request,
            price,
            quantity,
            reference,
        } => Layout {
            firm,
            side,
            number: request.0,
            price: price.0,
            quantity: quantity.0,
            ..blank(Kind::Answer, reference)
        },
        Message::Confirmation {
            firm,
            side,
            request,
            price,
            reference,
        } => Layout {
            firm,
            side,
            number: request.0,
            price: price.0,
            ..blank(Kind::Confirmation, reference)
        },
        Message::Clock { time, reference } => Layout {
            time: time.0,
            ..blank(Kind::Clock, reference)
        },
    }
}

// The bytes before the reference.
fn front_of(layout: &Layout) -> [u8; FRONT]
    ensures { result ≡ front (plain layout.now) }
{
    let [n0, n1, n2, n3] = layout.number.to_le_bytes();
    let [p0, p1, p2, p3] = layout.price.to_le_bytes();
    let [q0, q1, q2, q3] = layout.quantity.to_le_bytes();
    let [m0, m1, m2, m3] = layout.minimum.to_le_bytes();
    let [t0, t1, t2, t3] = layout.time.to_le_bytes();
    let (kind, firm, side) = (u8::from(layout.kind), layout.firm.0, side_code(layout.side));
    [
        kind, firm, side, 0, n0, n1, n2, n3, p0, p1, p2, p3, q0, q1, q2, q3, m0, m1, m2, m3, t0,
        t1, t2, t3,
    ]
}

// Writes a message that is laid out, where its reference has eight bytes.
fn put(layout: &Layout, out: &mut [u8; FRAME])
    requires { length layout.now.reference.now ≡ 8 }
    ensures { out.new ≡ encoded (plain layout.now) }
{
    let (front, reference) = out.split_at_mut(FRONT);
    front.copy_from_slice(&front_of(layout));
    reference.copy_from_slice(layout.reference);
}

// Writes the frame of a message, or, where its reference is not of eight bytes, nothing.
pub fn write<O: Orders>(message: &Message<O>, out: &mut [u8; FRAME]) -> Result<(), Fault>
    ensures result { result ≡ write_answer (meaning message.now) }
    ensures after { out.new ≡ written_over (meaning message.now) out.old }
    ensures rereads { (place : ℕ) → length (meaning message.now).reference ≡ 8 → decoded O.Orders.taken place out.new ≡ Ok (meaning message.now) }
{
    let layout = lay_out(message);
    if layout.reference.len() != REFERENCE {
        return Err(Fault::new(Refusal::Length, 0, 0));
    }
    put(&layout, out);
    Ok(())
}
