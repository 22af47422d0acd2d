// A confirmation, whole: fills, what they leave, and the end of the request.
ghost use Rattle.std.specs.Prelude.{◌≡◌, ◌+◌, ◌≤◌, length};
ghost use Rattle.ranked.specs.Writes.{WritesFront};
ghost use Rattle.rules.specs.State.{an_answer, a_request};
ghost use Rattle.turns.specs.Tables.{Rising, Lessens};
ghost use Rattle.turns.specs.Turn.{Tradable, found_at, confirmation, BookAfter};
ghost use Rattle.turns.specs.Seats.{held, SameLoans};

use super::finishing::Counts;
use super::seat::{Seat, Wanted};
use book::Book;
use draw::Eligible;
use rules::Report;
use units::{Money, Quantity};

// What a turn came to: how many reports it wrote, what the tables hold after it, and size and money where something traded.
#[derive(Clone, Copy, Debug, PartialEq, Eq)]
pub struct Turned {
    pub written: usize,
    pub counts: Counts,
    pub found: Option<(Quantity, Money)>,
}

impl<'a, B: Book> Seat<'a, B> {
    // Confirms a request at the price: writes all its reports, and leaves of book and tables what they leave.
    pub fn confirm(
        &mut self,
        wanted: Wanted,
        least: Quantity,
        work: &mut [Eligible],
        reports: &mut [Report],
    ) -> Turned
        requires rising { Rising an_answer self.old.answers.now }
        requires working { B.Book.MOST + length self.old.answers.now ≤ length work.old }
        requires places { B.Book.MOST + length self.old.answers.now + (length self.old.requests.now + length self.old.answers.now) ≤ length reports.old }
        requires tradable { Tradable (held B.Book self.old) wanted }
        ensures same { SameLoans self.old self.new }
        ensures written { WritesFront reports.old reports.new result.written (confirmation (held B.Book self.old) wanted least.0) }
        ensures found { result.found ≡ found_at (held B.Book self.old) wanted least.0 }
        ensures requests { Lessens a_request (confirmation (held B.Book self.old) wanted least.0) self.old.requests.now self.new.requests.now result.counts.requests }
        ensures answers { Lessens an_answer (confirmation (held B.Book self.old) wanted least.0) self.old.answers.now self.new.answers.now result.counts.answers }
        ensures book { BookAfter (held B.Book self.old) wanted.request (λ s. confirmation s wanted least.0) (B.Book.means self.new.book.now) }
    {
        let (traded, found) = self.supply().trade_at(wanted, least, work, reports);
        let number = wanted.request.number;
        let (fills, room) = reports.split_at_mut(traded);
        let (ended, counts) = self.finish(number, wanted.side, fills, room);
        Turned {
            written: traded + ended,
            counts,
            found,
        }
    }
}
