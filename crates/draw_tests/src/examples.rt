// Rankings and draws by example.
ghost use Rattle.std.specs.Prelude.{◌≡◌, ℕ, ◌≤◌, true};
ghost use Rattle.units.specs.Ranges.{is_price};
ghost use Rattle.draw.specs.declared.fills.Fill.{Fill};

use draw::{
    Answering, Eligible, Fill, RequestRanking, TellsFill, count_firms, decide, decide_automatic,
    execute, pour, share, shown_price, total_status,
};
use ranked::{Dated, ExpiryRanking, Named, rank};
use units::{Firm, FirmCount, Lot, Money, Number, Price, Quantity, Side, Time};

// A fill as a report tells it.
#[derive(Clone, Copy, Debug, PartialEq, Eq)]
struct Told {
    taker: u32,
    maker: u32,
    quantity: u32,
}

impl TellsFill for Told {
    ghost tells = { λ taker fill. record { taker = taker; maker = fill.maker.0; quantity = fill.quantity.0 } };

    fn of_fill(taker: Number, fill: Fill) -> Told {
        Told {
            taker: taker.0,
            maker: fill.maker.0,
            quantity: fill.quantity.0,
        }
    }
}

fn report(taker: u32, maker: u32, quantity: u32) -> Told {
    Told {
        taker,
        maker,
        quantity,
    }
}

// An answer with its firm and its request.
#[derive(Clone, Copy, Debug, PartialEq, Eq)]
struct Answer {
    firm: Firm,
    request: Number,
}

impl Answering for Answer {
    ghost of_firm = { λ a. a.firm.0 };

    ghost to_request = { λ a. a.request.0 };

    fn firm(&self) -> Firm {
        self.firm
    }

    fn request(&self) -> Number {
        self.request
    }
}

// A request that expires.
#[derive(Clone, Copy, Debug, PartialEq, Eq)]
struct Deadline {
    number: Number,
    at: Time,
}

impl Named for Deadline {
    ghost number = { λ d. d.number.0 };
}

impl Dated for Deadline {
    ghost due = { λ d. d.at.0 };

    fn deadline(&self) -> Time {
        self.at
    }

    fn name(&self) -> Number {
        self.number
    }
}

// Firm 4 sells 1,000 at 980 in the book, and firms 2 and 3 answer 2,000 at 990 and 5,000 at 1,000.
const BOOK_AT_980: Eligible = Eligible {
    number: Number(1),
    firm: Firm(4),
    price: Price(980),
    left: Quantity(1000),
    is_answer: false,
};

const ANSWER_AT_990: Eligible = Eligible {
    number: Number(3),
    firm: Firm(2),
    price: Price(990),
    left: Quantity(2000),
    is_answer: true,
};

const ANSWER_AT_1000: Eligible = Eligible {
    number: Number(4),
    firm: Firm(3),
    price: Price(1000),
    left: Quantity(5000),
    is_answer: true,
};

// What a buyer of 5,000 trades on a confirmation, where these three sell.
fn confirm(price: Price, least: Quantity) -> Option<(Quantity, Money)>
    requires { is_price price.0 ≡ true }
{
    let mut offers = [ANSWER_AT_1000, ANSWER_AT_990, BOOK_AT_980];
    decide(
        &RequestRanking { side: Side::Buy },
        &mut offers,
        Lot(10),
        price,
        least,
        Quantity(5000),
    )
}

// What a seller of 3,000 trades with bids of 2,000 at 990 and 1,000 at 1,000.
fn confirm_selling(price: Price) -> Option<(Quantity, Money)>
    requires { is_price price.0 ≡ true }
{
    let mut offers = [
        Eligible {
            number: Number(1),
            firm: Firm(4),
            price: Price(990),
            left: Quantity(2000),
            is_answer: false,
        },
        Eligible {
            number: Number(3),
            firm: Firm(2),
            price: Price(1000),
            left: Quantity(1000),
            is_answer: true,
        },
    ];
    decide(
        &RequestRanking { side: Side::Sell },
        &mut offers,
        Lot(10),
        price,
        Quantity(0),
        Quantity(3000),
    )
}

// The price that a buyer of 3 is shown where 2 are sold at 1 and 1 at 2.
fn shown_for_three() -> Option<Price> {
    let mut offers = [
        Eligible {
            number: Number(1),
            firm: Firm(4),
            price: Price(1),
            left: Quantity(2),
            is_answer: false,
        },
        Eligible {
            number: Number(3),
            firm: Firm(4),
            price: Price(2),
            left: Quantity(1),
            is_answer: false,
        },
    ];
    let (size, money) = total_status(
        &RequestRanking { side: Side::Buy },
        &mut offers,
        Quantity(3),
    );
    shown_price(size, money)
}

// At one price, answers of 500 and 700 and a book offer of 1,000 in request ranking; the fourth place is not ranked.
fn rank_ties() -> [Number; 4] {
    let mut offers = [
        Eligible {
            number: Number(1),
            firm: Firm(4),
            price: Price(980),
            left: Quantity(1000),
            is_answer: false,
        },
        Eligible {
            number: Number(3),
            firm: Firm(2),
            price: Price(980),
            left: Quantity(500),
            is_answer: true,
        },
        Eligible {
            number: Number(4),
            firm: Firm(3),
            price: Price(980),
            left: Quantity(700),
            is_answer: true,
        },
        Eligible {
            number: Number(5),
            firm: Firm(3),
            price: Price(970),
            left: Quantity(700),
            is_answer: true,
        },
    ];
    rank(&RequestRanking { side: Side::Buy }, &mut offers[..3]);
    offers.map(|o| o.number)
}

// Size and money of what trades.
fn trades(size: u32, money: u64) -> Option<(Quantity, Money)> {
    Some((Quantity(size), Money(money)))
}

#[test]
fn confirms_at_a_price(rt: HostRuntime) {
    assert_eq!(rt; confirm(Price(992), Quantity(0)), trades(5000, 4_960_000));
    assert_eq!(rt; confirm(Price(991), Quantity(0)), trades(4440, 4_400_000));
    assert_eq!(rt; confirm(Price(980), Quantity(0)), trades(1000, 980_000));
    assert_eq!(rt; confirm(Price(979), Quantity(0)), None);
    assert_eq!(rt;
        confirm(Price(991), Quantity(4440)),
        trades(4440, 4_400_000)
    );
    assert_eq!(rt; confirm(Price(991), Quantity(4450)), None);
    assert_eq!(rt; confirm_selling(Price(995)), trades(2000, 1_990_000));
}

// What request 2 trades at 991, as reports.
fn trade() -> [Told; 4] {
    let mut offers = [ANSWER_AT_1000, ANSWER_AT_990, BOOK_AT_980];
    let mut out = [report(0, 0, 0); 4];
    let found = decide(
        &RequestRanking { side: Side::Buy },
        &mut offers,
        Lot(10),
        Price(991),
        Quantity(0),
        Quantity(5000),
    );
    let _ = execute(&offers, found, Number(2), &mut out);
    out
}

#[test]
fn carries_out_a_decision(rt: HostRuntime) {
    assert_eq!(rt;
        trade(),
        [
            report(2, 1, 1000),
            report(2, 3, 2000),
            report(2, 4, 1440),
            report(0, 0, 0),
        ]
    );
}

// What a turn of an automatic request for 5,000 trades, where answers come from two firms.
fn turn(limit: Price, least: FirmCount) -> Option<(Quantity, Money)>
    requires { is_price limit.0 ≡ true }
{
    let mut offers = [BOOK_AT_980, ANSWER_AT_990, ANSWER_AT_1000];
    decide_automatic(
        &RequestRanking { side: Side::Buy },
        &mut offers,
        Lot(10),
        limit,
        Quantity(5000),
        least,
        FirmCount(2),
    )
}

#[test]
fn serves_an_automatic_request(rt: HostRuntime) {
    assert_eq!(rt; turn(Price(992), FirmCount(2)), trades(5000, 4_960_000));
    assert_eq!(rt; turn(Price(991), FirmCount(2)), None);
    assert_eq!(rt; turn(Price(992), FirmCount(3)), None);
}

#[test]
fn shows_a_rounded_price(rt: HostRuntime) {
    assert_eq!(rt; shown_for_three(), Some(Price(1)));
}

#[test]
fn ranks_ties(rt: HostRuntime) {
    assert_eq!(rt; rank_ties(), [Number(4), Number(3), Number(1), Number(5)]);
}

#[test]
fn ranks_deadlines(rt: HostRuntime) {
    let mut deadlines = [
        Deadline {
            number: Number(7),
            at: Time(5000),
        },
        Deadline {
            number: Number(9),
            at: Time(4000),
        },
        Deadline {
            number: Number(2),
            at: Time(5000),
        },
    ];
    rank(&ExpiryRanking, &mut deadlines);
    assert_eq!(rt;
        deadlines.map(|d| d.number),
        [Number(9), Number(2), Number(7)]
    );
}

#[test]
fn pours_in_order(rt: HostRuntime) {
    let offers = [BOOK_AT_980, ANSWER_AT_990, ANSWER_AT_1000];
    let mut out = [report(9, 9, 9); 5];
    let count = pour(&offers, Number(2), Quantity(1500), &mut out[1..]);
    assert_eq!(rt; count, 2);
    assert_eq!(rt;
        out,
        [
            report(9, 9, 9),
            report(2, 1, 1000),
            report(2, 3, 500),
            report(9, 9, 9),
            report(9, 9, 9),
        ]
    );
    assert_eq!(rt; share(&offers, Quantity(1500), Number(3)), Quantity(500));
    assert_eq!(rt; share(&offers, Quantity(1500), Number(4)), Quantity(0));
}

#[test]
fn counts_firms_and_not_answers(rt: HostRuntime) {
    let answers = [
        Answer {
            firm: Firm(2),
            request: Number(2),
        },
        Answer {
            firm: Firm(3),
            request: Number(2),
        },
        Answer {
            firm: Firm(2),
            request: Number(2),
        },
        Answer {
            firm: Firm(5),
            request: Number(7),
        },
    ];
    assert_eq!(rt; count_firms(&answers, Number(2)), FirmCount(2));
}
