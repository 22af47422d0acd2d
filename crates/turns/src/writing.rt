// Writing what an iterator gives over the front of a lent list.
ghost use Rattle.std.specs.Prelude.{◌≤◌, List, length};
ghost use Rattle.std.specs.Iterator.{IsFinite, Yields, Drains};
ghost use Rattle.ranked.specs.Writes.{WritesFront};

// Writes all that the iterator gives; answers how many. A function of its own, since for a loop over such a chain in
// `gather` itself the checker wrote no statement that types (`iterator-loop-eligible`: `Lfts` in the place of a `RattleType`).
pub(super) fn write_all<T: Copy, I: Iterator<Item = T> + Drop>(items: I, out: &mut [T]) -> usize
    requires can { I.can_next items }
    requires ends { IsFinite (I.remaining items) }
    requires room { (xs : List T) (t : I) → Yields I.next_gives items xs t → length xs ≤ length out.old }
    ensures written { (xs : List T) × Drains I.next_gives items xs × WritesFront out.old out.new result xs }
{
    // By index: how many places were written is the answer too.
    let mut n: usize = 0;
    for item in items {
        out[n] = item;
        n += 1;
    }
    n
}
