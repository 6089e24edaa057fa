// A book under notices is again a book.
ghost use Rattle.std.specs.Prelude.{◌≡◌};
ghost use Rattle.layers.specs.NoticeLaws.{noticed_lawful};
ghost use Rattle.layers.specs.Notices.{clears, hindering, noticed_exits, past};
ghost use Rattle.layers.specs.Toward.{answer_of};

use crate::notices::{Notice, Noticed};
use crate::toward::Toward;
use books::book::{Book, Gate, Instant};

impl Notice {
    // A passage through the gate keeps clear of this notice.
    fn is_clear_of(self, gate: Gate, passage: (Instant, Instant)) -> bool
        ensures { result ≡ clears gate passage.0 passage.1 self }
    {
        let (s, e) = passage;
        self.gate != gate || e <= self.begin || self.end <= s
    }
}

impl Toward {
    // The instant to ask again at, past a notice in the way.
    fn past(self, notice: Notice) -> Instant
        ensures { result ≡ past self notice }
    {
        match self {
            Toward::Later => notice.end,
            Toward::Earlier => notice.begin,
        }
    }
}

impl<B> Noticed<B> {
    // The first notice in the way of a passage.
    fn hindrance(&self, gate: Gate, passage: (Instant, Instant)) -> Option<Notice>
        ensures { result ≡ hindering self.now.notices.items gate passage.0 passage.1 }
    {
        self.notices
            .iter()
            .copied()
            .find(|notice| !notice.is_clear_of(gate, passage))
    }
}

impl<B: Book> Noticed<B> {
    // The passage of the book that keeps clear: steps over each notice in the way, at most once each.
    fn clear(&self, toward: Toward, gate: Gate, t: Instant) -> Option<(Instant, Instant)>
        ensures { result ≡ answer_of toward (noticed_exits self.now.notices.items (B.Book.exits self.now.book) gate) t }
    {
        let mut at = t;
        // it counts steps, and no place in a list
        for _step in 0..self.notices.len() + 1 {
            let passage = toward.ask(&self.book, gate, at)?;
            match self.hindrance(gate, passage) {
                None => return Some(passage),
                Some(notice) => at = toward.past(notice),
            }
        }
        None
    }
}

impl<B: Book> Book for Noticed<B> {
    ghost gates = { λ b. B.Book.gates b.book };

    ghost exits = { λ b. noticed_exits b.notices.items (B.Book.exits b.book) };

    ghost lawful = { λ b. noticed_lawful b.notices.items (B.Book.gates b.book) (B.Book.exits b.book) (B.Book.lawful b.book) };

    fn count(&self) -> Gate {
        self.book.count()
    }

    fn first(&self, gate: Gate, t: Instant) -> Option<(Instant, Instant)> {
        self.clear(Toward::Later, gate, t)
    }

    fn last(&self, gate: Gate, t: Instant) -> Option<(Instant, Instant)> {
        self.clear(Toward::Earlier, gate, t)
    }
}
