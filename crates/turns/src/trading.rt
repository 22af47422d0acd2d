// What a request trades: one gathering, one ranking and one pass.
ghost use Rattle.std.specs.Prelude.{◌≡◌, ◌+◌, ◌<◌, ◌≤◌, ◌^◌, length};
ghost use Rattle.ranked.specs.Writes.{WritesFront};
ghost use Rattle.std.specs.Fn.{FnOnceReturnsAtMut};
ghost use Rattle.rules.specs.Step.{on_offer, trade};
ghost use Rattle.turns.specs.Turn.{Tradable, LeavesRanked, found_at, fills_at, found_in_turn, fills_in_turn};
ghost use Rattle.turns.specs.Seats.{supplied};

use super::seat::{Supply, Wanted};
use book::Book;
use draw::{Eligible, RequestRanking, count_firms, decide, decide_automatic, execute};
use rules::Report;
use units::{FirmCount, Money, Quantity};

impl<'a, B: Book> Supply<'a, B> {
    // Gathers what the request may draw on, lets the decision rank it and find what trades, and writes the fills; answers how many, and what was found.
    fn trade<F: FnOnce(&mut [Eligible]) -> Option<(Quantity, Money)>>(
        &self,
        wanted: Wanted,
        decision: F,
        work: &mut [Eligible],
        out: &mut [Report],
    ) -> (usize, Option<(Quantity, Money)>)
        requires working { B.Book.MOST + length self.now.answers.now ≤ length work.old }
        requires places { B.Book.MOST + length self.now.answers.now ≤ length out.old }
        requires decides { (offers : _) → offers.now ≡ on_offer (supplied B.Book self.now) wanted.request wanted.side → F.pre decision offers }
        requires ranks { (found : _) (left : _) → FnOnceReturnsAtMut F.FnOnce decision (on_offer (supplied B.Book self.now) wanted.request wanted.side) found left → LeavesRanked (supplied B.Book self.now) wanted found left }
        ensures written { WritesFront out.old out.new result.0 (trade (supplied B.Book self.now) wanted.request wanted.side result.1) }
        ensures found { (left : _) × FnOnceReturnsAtMut F.FnOnce decision (on_offer (supplied B.Book self.now) wanted.request wanted.side) result.1 left }
        ensures few { result.0 ≤ B.Book.MOST + length self.now.answers.now }
    {
        let n = self.gather(wanted.taker(), work);
        let offers = &mut work[..n];
        let found = decision(offers);
        (execute(offers, found, wanted.request.number, out), found)
    }

    // Writes the fills of a confirmation of the request at the price; answers how many, and size and money where something trades.
    pub fn trade_at(
        &self,
        wanted: Wanted,
        least: Quantity,
        work: &mut [Eligible],
        out: &mut [Report],
    ) -> (usize, Option<(Quantity, Money)>)
        requires working { B.Book.MOST + length self.now.answers.now ≤ length work.old }
        requires places { B.Book.MOST + length self.now.answers.now ≤ length out.old }
        requires tradable { Tradable (supplied B.Book self.now) wanted }
        ensures written { WritesFront out.old out.new result.0 (fills_at (supplied B.Book self.now) wanted least.0) }
        ensures found { result.1 ≡ found_at (supplied B.Book self.now) wanted least.0 }
        ensures few { result.0 ≤ B.Book.MOST + length self.now.answers.now }
    {
        let Wanted {
            request,
            side,
            limit,
        } = wanted;
        let rule = RequestRanking { side };
        let lot = self.book.lot();
        self.trade(
            wanted,
            |offers| decide(&rule, offers, lot, limit, least, request.left),
            work,
            out,
        )
    }

    // Writes the fills of a turn of an automatic request; answers how many, and size and money where it trades.
    pub fn trade_in_turn(
        &self,
        wanted: Wanted,
        least: FirmCount,
        work: &mut [Eligible],
        out: &mut [Report],
    ) -> (usize, Option<(Quantity, Money)>)
        requires few { length self.now.answers.now < 2 ^ 32 }
        requires working { B.Book.MOST + length self.now.answers.now ≤ length work.old }
        requires places { B.Book.MOST + length self.now.answers.now ≤ length out.old }
        requires tradable { Tradable (supplied B.Book self.now) wanted }
        ensures written { WritesFront out.old out.new result.0 (fills_in_turn (supplied B.Book self.now) wanted least.0) }
        ensures found { result.1 ≡ found_in_turn (supplied B.Book self.now) wanted least.0 }
        ensures few { result.0 ≤ B.Book.MOST + length self.now.answers.now }
    {
        let Wanted {
            request,
            side,
            limit,
        } = wanted;
        let rule = RequestRanking { side };
        let lot = self.book.lot();
        let firms = count_firms(self.answers, request.number);
        self.trade(
            wanted,
            |offers| decide_automatic(&rule, offers, lot, limit, request.left, least, firms),
            work,
            out,
        )
    }
}
