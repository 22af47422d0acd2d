// A turn of an automatic request, whole: where something trades, its fills, what they leave, and its end.
ghost use Rattle.std.specs.Prelude.{◌≡◌, ◌+◌, ◌<◌, ◌≤◌, ◌^◌, length, take};
ghost use Rattle.ranked.specs.Writes.{WritesFront};
ghost use Rattle.rules.specs.State.{an_answer};
ghost use Rattle.turns.specs.Tables.{Rising};
ghost use Rattle.turns.specs.Turn.{Tradable, found_in_turn, service, AllAfter};
ghost use Rattle.turns.specs.Seats.{held, SameLoans};

use super::confirming::Turned;
use super::finishing::Counts;
use super::seat::{Seat, Wanted};
use book::Book;
use draw::Eligible;
use rules::Report;
use units::FirmCount;

impl<'a, B: Book> Seat<'a, B> {
    // Gives an automatic request its turn: writes all its reports, none where no draw is good, and leaves of book and tables what they leave.
    pub fn serve(
        &mut self,
        wanted: Wanted,
        least_firms: FirmCount,
        work: &mut [Eligible],
        reports: &mut [Report],
    ) -> Turned
        requires living { length self.old.answers.now < 2 ^ 32 }
        requires rising { Rising an_answer self.old.answers.now }
        requires working { B.Book.MOST + length self.old.answers.now ≤ length work.old }
        requires places { B.Book.MOST + length self.old.answers.now + (length self.old.requests.now + length self.old.answers.now) ≤ length reports.old }
        requires tradable { Tradable (held B.Book self.old) wanted }
        ensures same { SameLoans self.old self.new }
        ensures written { WritesFront reports.old reports.new result.written (service (held B.Book self.old) wanted least_firms.0) }
        ensures found { result.found ≡ found_in_turn (held B.Book self.old) wanted least_firms.0 }
        ensures after { AllAfter (held B.Book self.old) wanted.request (λ s. service s wanted least_firms.0) (B.Book.means self.new.book.now) (take result.counts.requests self.new.requests.now) (take result.counts.answers self.new.answers.now) }
        ensures few_requests { result.counts.requests ≤ length self.old.requests.now }
        ensures few_answers { result.counts.answers ≤ length self.old.answers.now }
        ensures long_requests { length self.new.requests.now ≡ length self.old.requests.now }
        ensures long_answers { length self.new.answers.now ≡ length self.old.answers.now }
    {
        let (traded, found) = self
            .supply()
            .trade_in_turn(wanted, least_firms, work, reports);
        // Only what follows the fills is shared with `confirm`; a step for it would say this contract again.
        if traded == 0 {
            return Turned {
                written: 0,
                counts: Counts {
                    requests: self.requests.len(),
                    answers: self.answers.len(),
                },
                found,
            };
        }
        let number = wanted.request.number;
        let (fills, room) = reports.split_at_mut(traded);
        let (ended, counts) = self.finish(number, wanted.side, fills, room);
        Turned {
            written: traded + ended,
            counts,
            found,
        }
    }
}
