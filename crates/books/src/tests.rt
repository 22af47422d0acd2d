// Examples of each kind of book, and of why one is not made.
use super::*;
use std::test::Fail;
use units::Refusal;

// The refusal's number, 0 where the book was made.
fn refusal_number(made: Result<(), MakeError>) -> u8 {
    match made {
        Ok(()) => 0,
        Err(fault) => u8::from(Refusal::from(fault)),
    }
}

fn rungs(count: u32, quantity: u32, first: u32, step: u32) -> Rungs {
    Rungs {
        count,
        quantity: Quantity(quantity),
        first: Price(first),
        step: Step(step),
    }
}

fn plan(lot: Lot, buys: Rungs, sells: Rungs) -> Sides<Rungs> {
    Sides { lot, buys, sells }
}

#[test]
fn kept_book_keeps_orders_in_order(rt: HostRuntime) -> Result<(), Fail> {
    let Ok(mut book) = kept_book() else {
        return Err(Fail::new("not made"));
    };
    assert!(rt; book.enter(Side::Buy, order(7, 1, 100, 30)).is_ok());
    assert!(rt; book.enter(Side::Buy, order(5, 2, 101, 20)).is_ok());
    assert!(rt; book.enter(Side::Buy, order(9, 0, 99, 10)).is_ok());
    assert!(rt; book.enter(Side::Sell, order(5, 2, 101, 20)).is_err());
    assert!(rt; book.remove(Side::Buy, Number(5)).is_ok());
    assert!(rt; book.take(Side::Buy, Number(7), Quantity(20)).is_ok());
    assert_eq!(rt; book.count(Side::Buy), 2);
    assert_eq!(rt; book.offer(Side::Buy, 0), Some(order(7, 1, 100, 10)));
    assert_eq!(rt; book.offer(Side::Buy, 1), Some(order(9, 0, 99, 10)));
    assert_eq!(rt; book.offer(Side::Buy, 2), None);
    Ok(())
}

#[test]
fn kept_book_has_room_for_128_a_side(rt: HostRuntime) -> Result<(), Fail> {
    let Ok(mut book) = kept_book() else {
        return Err(Fail::new("not made"));
    };
    // Numbers of orders: there is no list to go over.
    for number in 1..129u32 {
        assert!(rt; book.enter(Side::Sell, order(number, 1, 100, 10)).is_ok());
    }
    assert!(rt; book.enter(Side::Sell, order(129, 1, 100, 10)).is_err());
    assert!(rt; book.enter(Side::Buy, order(129, 1, 100, 10)).is_ok());
    Ok(())
}

#[test]
fn ladder_numbers_and_prices_its_rungs(rt: HostRuntime) -> Result<(), Fail> {
    let Ok(mut book) = ladder() else {
        return Err(Fail::new("not made"));
    };
    assert_eq!(rt; book.offer(Side::Buy, 2), Some(order(3, 0, 970, 50)));
    assert_eq!(rt; book.offer(Side::Sell, 1), Some(order(66, 0, 1005, 40)));
    assert!(rt; book.take(Side::Sell, Number(65), Quantity(40)).is_ok());
    assert_eq!(rt; book.offer(Side::Sell, 0), Some(order(66, 0, 1005, 40)));
    assert_eq!(rt; book.count(Side::Sell), 1);
    Ok(())
}

#[test]
fn ladder_is_refused_in_order(rt: HostRuntime) {
    let mut place = None;
    let none = rungs(0, 0, 0, 0);
    assert_eq!(rt;
        refusal_number(Ladder::make(&mut place, plan(LOT, rungs(65, 15, 640, 10), none))),
        10
    );
    assert_eq!(rt;
        refusal_number(Ladder::make(
            &mut place,
            plan(LOT, none, rungs(4294967295, 15, 1, 4294967295))
        )),
        10
    );
    assert_eq!(rt;
        refusal_number(Ladder::make(&mut place, plan(LOT, rungs(65, 15, 641, 10), none))),
        11
    );
    assert_eq!(rt;
        refusal_number(Ladder::make(&mut place, plan(LOT, rungs(65, 20, 641, 10), none))),
        17
    );
    assert_eq!(rt;
        refusal_number(Ladder::make(&mut place, plan(Lot(0), none, none))),
        11
    );
    assert!(rt; place.is_none());
    assert_eq!(rt;
        refusal_number(Ladder::make(&mut place, plan(LOT, rungs(64, 20, 631, 10), none))),
        0
    );
    assert!(rt; place.is_some());
}

#[test]
fn mixed_book_stores_orders_behind_its_rungs(rt: HostRuntime) -> Result<(), Fail> {
    let Ok(mut book) = mixed_book() else {
        return Err(Fail::new("not made"));
    };
    assert!(rt; book.enter(Side::Sell, order(1, 3, 999, 10)).is_err());
    assert!(rt; book.enter(Side::Sell, order(129, 3, 999, 10)).is_ok());
    assert_eq!(rt; book.offer(Side::Sell, 2), Some(order(129, 3, 999, 10)));
    assert!(rt; book.remove(Side::Sell, Number(65)).is_ok());
    assert_eq!(rt; book.offer(Side::Sell, 1), Some(order(129, 3, 999, 10)));
    assert!(rt; book.enter(Side::Buy, order(65, 3, 985, 10)).is_ok());
    assert_eq!(rt; book.count(Side::Buy), 4);
    Ok(())
}
