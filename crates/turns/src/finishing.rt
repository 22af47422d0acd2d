// What follows the fills of a request: they are taken from the book and the tables, and the request ends.
ghost use Rattle.std.specs.Prelude.{◌≡◌, ◌+◌, ◌≤◌, length};
ghost use Rattle.units.specs.Sides.{other};
ghost use Rattle.ranked.specs.Writes.{WritesFront};
ghost use Rattle.rules.specs.State.{an_answer, a_request};
ghost use Rattle.rules.specs.Step.{with_end};
ghost use Rattle.turns.specs.Follows.{TradesSettle};
ghost use Rattle.turns.specs.Settled.{book_less, Settles};
ghost use Rattle.turns.specs.Tables.{Rising, Lessens};
ghost use Rattle.turns.specs.Seats.{held, SameLoans};
ghost use Rattle.turns.specs.Turn.{ending_after, ended};

use super::ending::end_request;
use super::seat::Seat;
use super::settling::settle;
use super::tables::lessen;
use book::Book;
use rules::{Answer, KillReason, Report, Request};
use units::{Number, Side};

// How many requests are open and how many answers alive.
#[derive(Clone, Copy, Debug, PartialEq, Eq)]
pub struct Counts {
    pub requests: usize,
    pub answers: usize,
}

// Keeps of both tables what the reports leave.
fn lessen_both(requests: &mut [Request], answers: &mut [Answer], reports: &[Report]) -> Counts
    ensures requests { Lessens a_request reports.now requests.old requests.new result.requests }
    ensures answers { Lessens an_answer reports.now answers.old answers.new result.answers }
{
    Counts {
        requests: lessen(requests, reports),
        answers: lessen(answers, reports),
    }
}

// Writes the end of the request after its fills, and keeps of both tables what fills and end leave; answers how many reports it wrote, and what the tables hold.
fn end_and_lessen(
    requests: &mut [Request],
    answers: &mut [Answer],
    number: Number,
    fills: &[Report],
    out: &mut [Report],
) -> (usize, Counts)
    requires places { length requests.old + length answers.old ≤ length out.old }
    requires rising { Rising an_answer answers.old }
    ensures written { WritesFront out.old out.new result.0 (ending_after fills.now requests.old answers.old number.0) }
    ensures requests { Lessens a_request (ended fills.now requests.old answers.old number.0) requests.old requests.new result.1.requests }
    ensures answers { Lessens an_answer (ended fills.now requests.old answers.old number.0) answers.old answers.new result.1.answers }
{
    let left = lessen_both(requests, answers, fills);
    let requests = &mut requests[..left.requests];
    let answers = &mut answers[..left.answers];
    let ended = end_request(
        requests,
        answers,
        number,
        KillReason::RequestDone,
        KillReason::AnswerDone,
        out,
    );
    (ended, lessen_both(requests, answers, &out[..ended]))
}

impl<'a, B: Book> Seat<'a, B> {
    // Takes a request's fills out of the book and the tables, and writes the end of the request; answers how many reports it wrote, and what the tables hold.
    #[tactic(auto, using(crate::proofs::Following::trades_settle))]
    pub fn finish(
        &mut self,
        number: Number,
        side: Side,
        fills: &[Report],
        out: &mut [Report],
    ) -> (usize, Counts)
        requires places { length self.old.requests.now + length self.old.answers.now ≤ length out.old }
        requires rising { Rising an_answer self.old.answers.now }
        ensures same { SameLoans self.old self.new }
        ensures written { WritesFront out.old out.new result.0 (ending_after fills.now self.old.requests.now self.old.answers.now number.0) }
        ensures requests { Lessens a_request (with_end (held B.Book self.old) number.0 fills.now) self.old.requests.now self.new.requests.now result.1.requests }
        ensures answers { Lessens an_answer (with_end (held B.Book self.old) number.0 fills.now) self.old.answers.now self.new.answers.now result.1.answers }
        ensures book { Settles (B.Book.means self.old.book.now) (other side) fills.now → B.Book.means self.new.book.now ≡ book_less fills.now (B.Book.means self.old.book.now) }
        ensures sound { TradesSettle }
    {
        settle(self.book, side.opposite(), fills);
        end_and_lessen(self.requests, self.answers, number, fills, out)
    }
}
