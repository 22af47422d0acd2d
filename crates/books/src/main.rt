// The same calls on a book of each kind, told in words.
#![tactic(auto)]

ghost use Rattle.std.specs.Prelude.{◌≡◌, true, is_ok};

use book::{Book, MakeError, Offer, OpenBook, Refused, Sides, offers};
use kept::KeptBook;
use ladder::{Ladder, Rungs, Step};
use mixed::MixedBook;
use std::io;
use units::{Firm, Lot, Number, Price, Quantity, Side};

#[cfg(test)]
mod tests;

const LOT: Lot = Lot(10);

// Three rungs to buy at 990, 980 and 970, two to sell at 1,000 and 1,005.
const PLAN: Sides<Rungs> = Sides {
    lot: LOT,
    buys: Rungs {
        count: 3,
        quantity: Quantity(50),
        first: Price(990),
        step: Step(10),
    },
    sells: Rungs {
        count: 2,
        quantity: Quantity(40),
        first: Price(1000),
        step: Step(5),
    },
};

// Three kinds of book, each made in its own way; that each is made is all that they share.
fn kept_book() -> Result<KeptBook, MakeError>
    ensures { is_ok result ≡ true }
{
    KeptBook::new(LOT)
}

fn ladder() -> Result<Ladder, MakeError>
    ensures { is_ok result ≡ true }
{
    Ladder::new(PLAN)
}

fn mixed_book() -> Result<MixedBook, MakeError>
    ensures { is_ok result ≡ true }
{
    MixedBook::new(PLAN)
}

fn order(number: u32, firm: u8, price: u32, quantity: u32) -> Offer {
    Offer {
        number: Number(number),
        firm: Firm(firm),
        price: Price(price),
        left: Quantity(quantity),
    }
}

// A `Result` has no words of its own to print.
fn verdict(answer: Result<(), Refused>) -> &'static str {
    match answer {
        Ok(()) => "done",
        Err(Refused) => "refused",
    }
}

// Whoever prints is given the handle and the book: a struct of the two would be taken apart at once.

// Every offer of a side, in order.
fn tell_side<B: Book>(rt: HostRuntime, book: &B, side: Side) -> io::Result<()> {
    let count = book.count(side);
    println!(rt; "  to {side}: {count}")?;
    for offer in offers(book, side) {
        println!(rt;
            "    number {}: {} at {} by firm {}",
            offer.number.0, offer.left.0, offer.price.0, offer.firm.0
        )?;
    }
    Ok(())
}

fn tell<B: Book>(rt: HostRuntime, book: &B) -> io::Result<()> {
    println!(rt; "  lot {}", book.lot().0)?;
    tell_side(rt, book, Side::Buy)?;
    tell_side(rt, book, Side::Sell)
}

fn take<B: Book>(
    rt: HostRuntime,
    book: &mut B,
    side: Side,
    number: u32,
    amount: u32,
) -> io::Result<()> {
    let answer = verdict(book.take(side, Number(number), Quantity(amount)));
    println!(rt; "  take {amount} of number {number} to {side}: {answer}")
}

// The calls that every kind of book answers.
fn drive<B: Book>(rt: HostRuntime, book: &mut B) -> io::Result<()> {
    tell(rt, book)?;
    take(rt, book, Side::Sell, 65, 10)?;
    take(rt, book, Side::Sell, 65, 15)?;
    take(rt, book, Side::Buy, 65, 10)?;
    take(rt, book, Side::Sell, 65, 30)?;
    take(rt, book, Side::Sell, 65, 10)?;
    take(rt, book, Side::Buy, 2, 60)?;
    take(rt, book, Side::Buy, 2, 50)?;
    tell(rt, book)
}

fn enter<B: OpenBook>(rt: HostRuntime, book: &mut B, side: Side, offer: Offer) -> io::Result<()> {
    let answer = verdict(book.enter(side, offer));
    println!(rt; "  enter number {} to {side}: {answer}", offer.number.0)
}

fn remove<B: OpenBook>(rt: HostRuntime, book: &mut B, side: Side, number: u32) -> io::Result<()> {
    let answer = verdict(book.remove(side, Number(number)));
    println!(rt; "  remove number {number} to {side}: {answer}")
}

// The calls that an open book answers besides.
fn drive_open<B: OpenBook>(rt: HostRuntime, book: &mut B) -> io::Result<()> {
    enter(rt, book, Side::Sell, order(65, 4, 1000, 40))?;
    enter(rt, book, Side::Sell, order(66, 4, 1005, 40))?;
    enter(rt, book, Side::Buy, order(2, 5, 980, 50))?;
    enter(rt, book, Side::Buy, order(200, 5, 985, 30))?;
    enter(rt, book, Side::Sell, order(200, 6, 985, 30))?;
    enter(rt, book, Side::Buy, order(201, 5, 985, 25))?;
    remove(rt, book, Side::Sell, 66)?;
    remove(rt, book, Side::Sell, 66)?;
    remove(rt, book, Side::Sell, 200)
}

fn main(rt: HostRuntime) -> io::Result<()> {
    if let Ok(mut book) = kept_book() {
        println!(rt; "A kept book:")?;
        drive_open(rt, &mut book)?;
        drive(rt, &mut book)?;
    }
    if let Ok(mut book) = ladder() {
        println!(rt; "A ladder:")?;
        drive(rt, &mut book)?;
    }
    if let Ok(mut book) = mixed_book() {
        println!(rt; "A mixed book:")?;
        drive_open(rt, &mut book)?;
        drive(rt, &mut book)?;
    }
    Ok(())
}
