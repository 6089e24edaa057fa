// The two-book layer: the gates of one book, and then those of another.
ghost use Rattle.std.specs.Prelude.{◌≡◌, ◌+◌, min};
ghost use Rattle.books.specs.Meaning.{Means};
ghost use Rattle.layers.specs.Toward.{answer_of};
ghost use Rattle.layers.specs.TwoBooks.{side_of, two_gates, two_exits, TwoPassage};
ghost use Rattle.layers.specs.TwoLaws.{two_lawful};

use crate::toward::Toward;
use books::book::{Book, Gate, Instant};

// No book has more gates.
const MOST_GATES: Gate = 1024;

// The gates of the first book, then those of the second, none above number 1,023.
#[derive(Drop)]
pub struct TwoBooks<F, S> {
    first: F,
    second: S,
}

// Which book has a gate, with the gate's number there.
enum Side {
    First(Gate),
    Second(Gate),
}

impl<F: Book, S: Book> TwoBooks<F, S> {
    pub fn new(first: F, second: S) -> TwoBooks<F, S>
        ensures meaning { Means (⟦<TwoBooks<F, S> as Book>⟧.gates result) (⟦<TwoBooks<F, S> as Book>⟧.exits result) (min (F.Book.gates first + S.Book.gates second) 1024) (TwoPassage (F.Book.gates first) (F.Book.exits first) (S.Book.exits second)) }
        ensures books { (result.first ≡ first) × (result.second ≡ second) }
    {
        TwoBooks { first, second }
    }

    #[inline(always)]
    fn side(&self, gate: Gate) -> Option<Side>
        ensures { result ≡ side_of (F.Book.gates self.now.first) gate }
    {
        let firsts = self.first.count();
        if gate < firsts {
            Some(Side::First(gate))
        } else if gate < MOST_GATES {
            Some(Side::Second(gate - firsts))
        } else {
            None
        }
    }

    // The book that has the gate answers. Inlined, so that each level of layers costs no call.
    #[inline(always)]
    #[tactic(auto, using(crate::proofs::Sides::answer_shut))]
    fn ask(&self, toward: Toward, gate: Gate, t: Instant) -> Option<(Instant, Instant)>
        ensures { result ≡ answer_of toward (two_exits (F.Book.gates self.now.first) (F.Book.exits self.now.first) (S.Book.exits self.now.second) gate) t }
    {
        match self.side(gate)? {
            Side::First(gate) => toward.ask(&self.first, gate, t),
            Side::Second(gate) => toward.ask(&self.second, gate, t),
        }
    }
}

impl<F: Book, S: Book> Book for TwoBooks<F, S> {
    ghost gates = { λ b. two_gates (F.Book.gates b.first) (S.Book.gates b.second) };

    ghost exits = { λ b. two_exits (F.Book.gates b.first) (F.Book.exits b.first) (S.Book.exits b.second) };

    ghost lawful = { λ b. two_lawful (F.Book.gates b.first) (S.Book.gates b.second) (F.Book.exits b.first) (S.Book.exits b.second) (F.Book.lawful b.first) (S.Book.lawful b.second) };

    fn count(&self) -> Gate {
        let firsts = self.first.count();
        let seconds = self.second.count();
        (firsts + seconds).min(MOST_GATES)
    }

    fn first(&self, gate: Gate, t: Instant) -> Option<(Instant, Instant)> {
        self.ask(Toward::Later, gate, t)
    }

    fn last(&self, gate: Gate, t: Instant) -> Option<(Instant, Instant)> {
        self.ask(Toward::Earlier, gate, t)
    }
}
