// Every group's totals raised.
ghost use Rattle.std.specs.Prelude.{◌≡◌, ◌/◌, length};
ghost use Rattle.wire.specs.Buffers.{put, rows};
ghost use Rattle.places.specs.Places.{ladders, book_size};
ghost use Rattle.verdict.specs.Way.{total_bytes};

use crate::ruling::Ruling;
use posting::raise::raise_group;
use rules::kinds::kinds_in;

impl Ruling<'_> {
    // Each group's part of the book is lent on. By the group: after `book[16..].chunks_exact_mut(2 * own)`, tried, a
    // proof knows of the book no more than its length; and for `as_chunks_mut` `own` is no constant.
    #[tactic(auto, using(rules::proofs::KindLaws::few))]
    pub(crate) fn raise_all(&self, book: &mut [u8], later: bool)
        requires { length book.old ≡ book_size self.now.shape.kinds }
        ensures { book.new ≡ put book.old 16 (rows (total_bytes later self.now.places.now
            book.old (length self.now.ids.now / 2)) (ladders self.now.shape.kinds)) }
    {
        let contracts = self.ids.len() / 2;
        let own = 16 * kinds_in(self.shape.kinds);
        for g in 0..128 {
            let at = 16 + 2 * own * g;
            let from = (own * g) as u16;
            raise_group(
                &mut book[at..at + 2 * own],
                later,
                self.places,
                from,
                contracts,
            );
        }
    }
}
