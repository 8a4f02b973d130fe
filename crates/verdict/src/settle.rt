// The day written: its findings, and the book after it.
ghost use Rattle.std.specs.Prelude.{◌≡◌, ◌*◌, ◌≤◌, length};
ghost use Rattle.wire.specs.Buffers.{put};
ghost use Rattle.places.specs.Places.{book_size};
ghost use Rattle.verdict.specs.Verdict.{verdict_of, found_count, findings, book_after};
ghost use Rattle.verdict.specs.Settle.{SettleGives};

use crate::count::count_found;
use crate::ruling::Ruling;
use places::book_size;
use posting::head::put_head;
use posting::raise::is_later_year;
use wire::refusal::Refusal;

impl Ruling<'_> {
    // The findings go first: they are judged on the book as it was. Its length is asked here and in `raise_all`: a
    // struct that knows it would hold the `&mut`, and each function would have to say that the book in it is still the
    // same.
    fn write_day(&self, date: u32, book: &mut [u8], out: &mut [u8])
        requires { (length book.old ≡ book_size self.now.shape.kinds) ×
            (8 * found_count (verdict_of self.now) ≤ length out.old) }
        ensures book_after { book.new ≡ book_after (verdict_of self.now) date book.old }
        ensures out_after { out.new ≡ put out.old 0 (findings (verdict_of self.now) date book.old) }
    {
        self.list_all(date, book, out);
        let later = is_later_year(book, date);
        self.raise_all(book, later);
        put_head(book, self.shape.letter, self.rulebook, date);
    }

    // Writes the findings and the book, and answers how many findings there are; or refuses and leaves both.
    pub fn settle(&self, date: u32, book: &mut [u8], out: &mut [u8]) -> Result<usize, Refusal>
        ensures { SettleGives (verdict_of self.now) date book.old out.old result book.new out.new }
    {
        let kinds = self.shape.kinds;
        if book.len() != book_size(kinds) {
            return Err(Refusal::NotSound);
        }
        let found = count_found(kinds, self.places, self.ids.len() / 2);
        if out.len() < 8 * found {
            return Err(Refusal::FindingsShort);
        }
        self.write_day(date, book, out);
        Ok(found)
    }
}
