// What a request may draw on, from a book of any kind and from the answers.
ghost use Rattle.std.specs.Prelude.{◌≡◌, ◌+◌, ◌≤◌, length};
ghost use Rattle.ranked.specs.Writes.{WritesFront};
ghost use Rattle.draw.specs.Offers.{eligible};
ghost use Rattle.rules.specs.Offers.{from_book, offered};

use super::seat::Supply;
use super::writing::write_all;
use book::{Book, Offer, offers};
use draw::{Eligible, Offered, Taker, admit};
use units::Side;

// An offer on a side of the book, as requests see it.
fn in_book(side: Side, offer: Offer) -> Offered
    ensures { result ≡ from_book side offer }
{
    Offered {
        number: offer.number,
        firm: offer.firm,
        side,
        price: offer.price,
        left: offer.left,
        answers_to: None,
    }
}

impl<'a, B: Book> Supply<'a, B> {
    // Writes all that the request may draw on; answers how many there are. Of the book, only the side that the request trades with has any.
    pub fn gather(&self, taker: Taker, work: &mut [Eligible]) -> usize
        requires { B.Book.MOST + length self.now.answers.now ≤ length work.old }
        ensures written { WritesFront work.old work.new result (eligible taker (offered (B.Book.means self.now.book.now).buys (B.Book.means self.now.book.now).sells self.now.answers.now)) }
        ensures few { result ≤ B.Book.MOST + length self.now.answers.now }
    {
        let side = taker.side.opposite();
        let in_book = offers(self.book, side).map(|offer| in_book(side, offer));
        let answers = self.answers.iter().map(|answer| Offered::from(*answer));
        let drawn = in_book
            .chain(answers)
            .filter_map(|offered| admit(taker, offered));
        write_all(drawn, work)
    }
}
