// What a market reports and answers.
ghost use Rattle.std.specs.Prelude.{◌≡◌};
ghost use Rattle.rules.specs.Reports.{reason_number, line_of, filled_by};

use draw::{Fill, TellsFill};
use units::{FirmCount, Money, Number, Price, Quantity};

// Why something is killed. Some numbers are those of refusals, and mean something else here.
#[derive(Clone, Copy, Debug, PartialEq, Eq)]
pub enum KillReason {
    // the rest of a request that was confirmed or traded by itself
    RequestDone,
    // what was left of its answers
    AnswerDone,
    // a request withdrawn by its issuer
    RequestWithdrawn,
    // an answer to such a request
    AnswerDropped,
    // a request whose deadline is reached
    RequestExpired,
    // an answer to such a request
    AnswerExpired,
    // an order or an answer withdrawn by its own firm
    Withdrawn,
}

// A report of a trade or of an end.
#[derive(Clone, Copy, Debug, PartialEq, Eq)]
pub enum Report {
    // the taker, and what it took of which maker at the maker's price
    Fill(Number, Fill),
    // the killed number, and what was left of it
    Kill(KillReason, Number, Quantity),
}

// A report as its six numbers, the form in which a host is told it: kind 1 is a fill, for no reason; kind 2 is a kill, with neither maker nor price.
#[derive(Clone, Copy, Debug, PartialEq, Eq)]
pub struct ReportLine {
    pub kind: u8,
    pub reason: u8,
    pub taker: Number,
    pub maker: Number,
    pub quantity: Quantity,
    pub price: Price,
}

// The number of a kill reason.
impl From<KillReason> for u8 {
    ghost from_gives = { λ r n. n ≡ reason_number r };

    fn from(reason: KillReason) -> u8 {
        match reason {
            KillReason::RequestDone => 21,
            KillReason::AnswerDone => 22,
            KillReason::RequestWithdrawn => 14,
            KillReason::AnswerDropped => 20,
            KillReason::RequestExpired => 101,
            KillReason::AnswerExpired => 102,
            KillReason::Withdrawn => 103,
        }
    }
}

impl From<Report> for ReportLine {
    ghost from_gives = { λ r l. l ≡ line_of r };

    fn from(report: Report) -> ReportLine {
        match report {
            Report::Fill(by, fill) => ReportLine {
                kind: 1,
                reason: 0,
                taker: by,
                maker: fill.maker,
                quantity: fill.quantity,
                price: fill.price,
            },
            Report::Kill(reason, number, left) => ReportLine {
                kind: 2,
                reason: u8::from(reason),
                taker: number,
                maker: Number(0),
                quantity: left,
                price: Price(0),
            },
        }
    }
}

impl TellsFill for Report {
    ghost tells = { filled_by };

    fn of_fill(taker: Number, fill: Fill) -> Report {
        Report::Fill(taker, fill)
    }
}

// What an accepted message is answered, in the form in which a host is told it: the number given, or 0; the count of its reports; size and money of all that it traded.
#[derive(Clone, Copy, Debug, PartialEq, Eq)]
pub struct Accepted {
    pub number: Number,
    pub count: usize,
    pub size: Quantity,
    pub money: Money,
}

// What a request could draw now, how many different firms answer it, and the price shown.
#[derive(Clone, Copy, Debug, PartialEq, Eq)]
pub struct Status {
    pub size: Quantity,
    pub money: Money,
    pub firms: FirmCount,
    pub price: Option<Price>,
}
