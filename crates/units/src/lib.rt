// The units of the market, each a type of its own, so that a price is never taken for a quantity, nor a firm for a number.
// A struct holds any value that its field of a message can hold: ranges are checked (ranges.rt), never built in,
// so that a message out of range can be expressed and refused.
#![tactic(auto)]

mod orders;
mod ranges;
mod refusal;
mod side;

pub use orders::{NoOrders, OpenOrders, Orders};
pub use ranges::Ranged;
pub use refusal::{Layer, Refusal};
pub use side::Side;

// Price units for one unit of quantity.
#[derive(Clone, Copy, Debug, PartialEq, Eq, PartialOrd, Ord)]
pub struct Price(pub u32);

// How many units are offered, asked for, left or traded.
#[derive(Clone, Copy, Debug, PartialEq, Eq, PartialOrd, Ord)]
pub struct Quantity(pub u32);

// The step of quantities: each is a multiple of the lot.
#[derive(Clone, Copy, Debug, PartialEq, Eq, PartialOrd, Ord)]
pub struct Lot(pub u32);

// A member; 0 is the house, which sends no message.
#[derive(Clone, Copy, Debug, PartialEq, Eq, PartialOrd, Ord)]
pub struct Firm(pub u8);

// Names one order, answer or request; 0 names nothing.
#[derive(Clone, Copy, Debug, PartialEq, Eq, PartialOrd, Ord)]
pub struct Number(pub u32);

// Milliseconds since the start of the day.
#[derive(Clone, Copy, Debug, PartialEq, Eq, PartialOrd, Ord)]
pub struct Time(pub u32);

// Seconds from a request's arrival to its deadline.
#[derive(Clone, Copy, Debug, PartialEq, Eq, PartialOrd, Ord)]
pub struct Delay(pub u32);

// How many different firms.
#[derive(Clone, Copy, Debug, PartialEq, Eq, PartialOrd, Ord)]
pub struct FirmCount(pub u32);

// Price times quantity, summed.
#[derive(Clone, Copy, Debug, PartialEq, Eq, PartialOrd, Ord)]
pub struct Money(pub u64);
