// The offers of a side of any book, one after another.
ghost use Rattle.std.specs.Prelude.{◌≡◌};
ghost use Rattle.std.specs.Iterator.{YieldsFirst, item_count};
ghost use Rattle.book.specs.Meaning.{side_of};
ghost use Rattle.book.specs.Offered.{still_offered};

use crate::{Book, Offer};
use units::Side;

// The offers of a side, from a place on.
#[derive(Drop)]
pub struct SideOffers<'a, B> {
    book: &'a B,
    side: Side,
    place: usize,
}

// The offers of a side of a book, in order.
pub fn offers<'a, B: Book>(book: &'a B, side: Side) -> SideOffers<'a, B>
    ensures { still_offered B.means result ≡ side_of (B.means book.now) side }
{
    SideOffers {
        book,
        side,
        place: 0,
    }
}

impl<'a, B: Book> Iterator for SideOffers<'a, B> {
    type Item = Offer;

    ghost next_gives = { YieldsFirst (still_offered B.means) };

    ghost remaining = { item_count (still_offered B.means) };

    #[tactic(auto, using(crate::proofs::Listing::left_none))]
    fn next(&mut self) -> Option<Offer> {
        let offer = self.book.offer(self.side, self.place)?;
        // The place is what this iterator is: a book has its offers by place alone.
        self.place += 1;
        Some(offer)
    }
}
