// Why a message, a grant or the making of a book is refused, in the order of the checks.
ghost use Rattle.std.specs.Prelude.{◌≡◌, Some};
ghost use Rattle.units.specs.Refusals.{number_of, layer_of, layer_number, layer_word};

use std::fmt;

// The part that refuses.
#[derive(Clone, Copy, Debug, PartialEq, Eq)]
pub enum Layer {
    File,
    Gateway,
    Market,
}

impl fmt::Display for Layer {
    ghost output = { λ l. Some (layer_word l) };

    fn fmt<W: fmt::Write>(&self, f: &mut fmt::Formatter<W>) -> fmt::Result {
        f.write_str(match self {
            Layer::File => "file",
            Layer::Gateway => "gateway",
            Layer::Market => "market",
        })
    }
}

// The number of a layer.
impl From<Layer> for u8 {
    ghost from_gives = { λ l n. n ≡ layer_number l };

    fn from(layer: Layer) -> u8 {
        match layer {
            Layer::File => 1,
            Layer::Gateway => 2,
            Layer::Market => 3,
        }
    }
}

#[derive(Clone, Copy, Debug, PartialEq, Eq)]
pub enum Refusal {
    // 1 to 31 bytes left at the end of a file; a reference to write that is not of eight bytes
    Length,
    // a kind that is not 1 to 7, or a book order where the book is not open
    Kind,
    // a byte that is not zero where no field of the kind is
    Stray,
    // a side above 2
    SideCode,
    // too few places in the report list
    ReportList,
    // too few places in the working list
    WorkingList,
    // the house sends no message and is granted nothing
    House,
    // a time before the market's, or past its range
    Time,
    // nothing open of that number
    Unknown,
    // a price out of range
    Price,
    // no quantity, or a lot out of range
    Quantity,
    // minimum units above the quantity or not of whole lots; too many minimum firms
    Minimum,
    // a delay out of range
    Delay,
    // no side where one is wanted, or the wrong one
    WrongSide,
    // an answer by a firm that is not granted, or by the issuer
    NotProvider,
    // a confirmation of an automatic request
    Automatic,
    // no room: requests, answers, the book's side, or rungs
    Full,
    // no number is left to give
    NoNumber,
}

// The number of a refusal.
impl From<Refusal> for u8 {
    ghost from_gives = { λ r n. n ≡ number_of r };

    fn from(refusal: Refusal) -> u8 {
        match refusal {
            Refusal::Length => 1,
            Refusal::Kind => 2,
            Refusal::Stray => 3,
            Refusal::SideCode => 4,
            Refusal::ReportList => 5,
            Refusal::WorkingList => 6,
            Refusal::House => 7,
            Refusal::Time => 8,
            Refusal::Unknown => 9,
            Refusal::Price => 10,
            Refusal::Quantity => 11,
            Refusal::Minimum => 12,
            Refusal::Delay => 13,
            Refusal::WrongSide => 14,
            Refusal::NotProvider => 15,
            Refusal::Automatic => 16,
            Refusal::Full => 17,
            Refusal::NoNumber => 18,
        }
    }
}

impl Refusal {
    // The part that refuses so.
    pub fn layer(self) -> Layer
        ensures { result ≡ layer_of self }
    {
        match self {
            Refusal::Length => Layer::File,
            Refusal::Kind | Refusal::Stray | Refusal::SideCode => Layer::Gateway,
            _ => Layer::Market,
        }
    }
}
