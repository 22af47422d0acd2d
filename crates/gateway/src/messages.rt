// The messages of members, and which fields of a frame each kind uses. The side of a message may be left open.
use units::{Delay, Firm, FirmCount, Number, OpenOrders, Price, Quantity, Side, Time};

// The bytes of a frame.
pub const FRAME: usize = 32;

// The bytes of a member's reference, the last of a frame.
pub const REFERENCE: usize = 8;

// The bytes before the reference: four of the header, and the numbers.
pub(super) const FRONT: usize = 24;

// Where each number stands, four bytes long.
pub(super) const NUMBER: usize = 4;

pub(super) const PRICE: usize = 8;

pub(super) const QUANTITY: usize = 12;

pub(super) const MINIMUM: usize = 16;

pub(super) const TIME: usize = 20;

// A message keeps its reference as the eight bytes of its frame. Orders are there by permission only:
// `Message<'a>` has all seven kinds, and `Message<'a, NoOrders>`, of a book that is not open, has no order.
// It is read once and then lent: nothing copies one.
#[derive(Drop)]
#[derive_where(Debug, PartialEq, Eq)]
pub enum Message<'a, O = OpenOrders> {
    Order {
        // all permissions of a type are alike, so messages compare without it
        #[derive_where(skip)]
        permission: O,
        firm: Firm,
        side: Option<Side>,
        price: Price,
        quantity: Quantity,
        reference: &'a [u8],
    },
    Withdrawal {
        firm: Firm,
        number: Number,
        reference: &'a [u8],
    },
    ManualRequest {
        firm: Firm,
        side: Option<Side>,
        quantity: Quantity,
        min_units: Quantity,
        delay: Delay,
        reference: &'a [u8],
    },
    AutoRequest {
        firm: Firm,
        side: Option<Side>,
        limit: Price,
        quantity: Quantity,
        min_firms: FirmCount,
        delay: Delay,
        reference: &'a [u8],
    },
    Answer {
        firm: Firm,
        side: Option<Side>,
        request: Number,
        price: Price,
        quantity: Quantity,
        reference: &'a [u8],
    },
    Confirmation {
        firm: Firm,
        side: Option<Side>,
        request: Number,
        price: Price,
        reference: &'a [u8],
    },
    Clock {
        time: Time,
        reference: &'a [u8],
    },
}

#[derive(Clone, Copy, Debug, PartialEq, Eq)]
pub enum Kind {
    Order,
    Withdrawal,
    ManualRequest,
    AutoRequest,
    Answer,
    Confirmation,
    Clock,
}

// Which fields of a frame a kind of message uses.
#[derive(Clone, Copy)]
pub struct Uses {
    pub firm: bool,
    pub side: bool,
    pub number: bool,
    pub price: bool,
    pub quantity: bool,
    pub minimum: bool,
    pub time: bool,
}
