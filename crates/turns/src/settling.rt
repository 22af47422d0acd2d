// What fills take from the book.
ghost use Rattle.std.specs.Prelude.{◌≡◌};
ghost use Rattle.turns.specs.Settled.{after_report, settled, book_less, Settles};

use book::Book;
use rules::Report;
use units::Side;

// Takes a fill's quantity from its maker. The book refuses what is not on that side of it, as the number of an answer.
fn take_one<B: Book>(book: &mut B, side: Side, report: Report)
    ensures { B.Book.means book.new ≡ after_report (B.Book.means book.old) side report }
{
    if let Report::Fill(_, fill) = report {
        let _ = book.take(side, fill.maker, fill.quantity);
    }
}

// Takes each fill from a side of the book, which then is what the fills leave of it.
#[tactic(auto, using(crate::proofs::Gathered::settled_more, crate::proofs::Gathered::settled_end))]
pub fn settle<B: Book>(book: &mut B, side: Side, fills: &[Report])
    ensures after { B.Book.means book.new ≡ settled (B.Book.means book.old) side fills.now }
    ensures left { Settles (B.Book.means book.old) side fills.now → B.Book.means book.new ≡ book_less fills.now (B.Book.means book.old) }
{
    for r in fills {
        take_one(book, side, *r);
    }
}
