// Messages and faults in words.
use arrayvec::ArrayString;
use gateway::{Fault, Message};
use std::fmt;
use std::fmt::Write;
use units::{Refusal, Side};

// What a firm wants of a quantity: the side that its message names, if it names one.
#[derive(Clone, Copy)]
struct Wants(Option<Side>);

impl fmt::Display for Wants {
    fn fmt<W: fmt::Write>(&self, f: &mut fmt::Formatter<W>) -> fmt::Result {
        match self.0 {
            Some(side) => write!(f, "to {side}"),
            None => f.write_str("on no side"),
        }
    }
}

// A reference between quotes, those of its bytes that are no printable ASCII in hexadecimal.
#[derive(Clone, Copy)]
struct Quoted<'a>(&'a [u8]);

impl fmt::Display for Quoted<'_> {
    fn fmt<W: fmt::Write>(&self, f: &mut fmt::Formatter<W>) -> fmt::Result {
        // Gathered and written at once, since each piece costs a writer more than its text does. A byte takes four places at most, and the quote behind one.
        let mut text = ArrayString::<40>::new();
        text.push('"');
        for &byte in self.0 {
            if text.remaining_capacity() < 5 {
                f.write_str(text.as_str())?;
                text.clear();
            }
            match byte {
                b'"' | b'\\' => write!(text, "\\{}", char::from(byte))?,
                b' '..=b'~' => text.try_push(char::from(byte)).map_err(|_| fmt::Error)?,
                _ => write!(text, "\\x{byte:02x}")?,
            }
        }
        text.try_push('"').map_err(|_| fmt::Error)?;
        f.write_str(text.as_str())
    }
}

// A message, with all its fields.
#[derive(Clone, Copy)]
pub(super) struct Words<'a>(pub(super) &'a Message<'a>);

impl fmt::Display for Words<'_> {
    fn fmt<W: fmt::Write>(&self, f: &mut fmt::Formatter<W>) -> fmt::Result {
        let reference = match *self.0 {
            Message::Order {
                firm,
                side,
                price,
                quantity,
                reference,
                ..
            } => {
                write!(
                    f,
                    "book order by firm {} {} {} at {}",
                    firm.0,
                    Wants(side),
                    quantity.0,
                    price.0
                )?;
                reference
            }
            Message::Withdrawal {
                firm,
                number,
                reference,
            } => {
                write!(f, "withdrawal by firm {} of number {}", firm.0, number.0)?;
                reference
            }
            Message::ManualRequest {
                firm,
                side,
                quantity,
                min_units,
                delay,
                reference,
            } => {
                write!(
                    f,
                    "manual request by firm {} {} {}, at least {}, open for {} s",
                    firm.0,
                    Wants(side),
                    quantity.0,
                    min_units.0,
                    delay.0
                )?;
                reference
            }
            Message::AutoRequest {
                firm,
                side,
                limit,
                quantity,
                min_firms,
                delay,
                reference,
            } => {
                write!(
                    f,
                    "automatic request by firm {} {} {} at {} on average or better, from at least {} firms answering, open for {} s",
                    firm.0,
                    Wants(side),
                    quantity.0,
                    limit.0,
                    min_firms.0,
                    delay.0
                )?;
                reference
            }
            Message::Answer {
                firm,
                side,
                request,
                price,
                quantity,
                reference,
            } => {
                write!(
                    f,
                    "answer by firm {} {} {} at {} to request {}",
                    firm.0,
                    Wants(side),
                    quantity.0,
                    price.0,
                    request.0
                )?;
                reference
            }
            Message::Confirmation {
                firm,
                side,
                request,
                price,
                reference,
            } => {
                write!(
                    f,
                    "confirmation by firm {} {} at {} on average or better under request {}",
                    firm.0,
                    Wants(side),
                    price.0,
                    request.0
                )?;
                reference
            }
            Message::Clock { time, reference } => {
                write!(f, "clock step to {} ms", time.0)?;
                reference
            }
        };
        write!(f, ", reference {}", Quoted(reference))
    }
}

// Why reading refuses, and no Display of a refusal: these words are those of reading alone, since the market's own reasons never come of a frame.
fn why(refusal: Refusal) -> &'static str {
    match refusal {
        Refusal::Length => "the end of the stream is no whole frame",
        Refusal::Kind => "there is no such kind of message",
        Refusal::Stray => "this byte belongs to no field of the kind and is not zero",
        Refusal::SideCode => "there is no such side",
        _ => "the market refuses it",
    }
}

// A fault, with layer, number and byte.
#[derive(Clone, Copy)]
pub(super) struct Reason<'a>(pub(super) &'a Fault);

impl fmt::Display for Reason<'_> {
    fn fmt<W: fmt::Write>(&self, f: &mut fmt::Formatter<W>) -> fmt::Result {
        let Fault {
            layer,
            refusal,
            byte,
            ..
        } = *self.0;
        write!(
            f,
            "refused by the {layer} (layer {}) with {} at byte {byte}: {}",
            u8::from(layer),
            u8::from(refusal),
            why(refusal)
        )
    }
}
