// The two reckonings over a book: what a search for journeys works with.
ghost use Rattle.planner.specs.Reckonings.{no_later, comes_out, earliest_laws, earliest_antisymmetric, no_sooner, goes_in, latest_laws, latest_antisymmetric};

use books::book::{Book, Gate, Instant};
use search::reckoning::Reckoning;

// Earliest arrival, along the reaches: a label is when the boat is at a place.
#[derive_where(Clone, Copy)]
pub struct EarliestArrival<'a, B> {
    pub book: &'a B,
}

// The trait's one instance here: the exit of the first passage.
impl<'a, B: Book> Reckoning for EarliestArrival<'a, B> {
    type Label = Instant;

    ghost good = { λ r. no_later };

    ghost goes = { λ r. comes_out (B.Book.exits r.book.now) };

    ghost laws = { λ r. earliest_laws (B.Book.gates r.book.now) (B.Book.exits r.book.now) (B.Book.lawful r.book.now) };

    ghost antisymmetric = { λ r. earliest_antisymmetric };

    fn at_least(&self, x: Instant, y: Instant) -> bool {
        x <= y
    }

    fn go(&self, gate: Gate, x: Instant) -> Option<Instant> {
        let (_, exit) = self.book.first(gate, x)?;
        Some(exit)
    }
}

// Latest departure, against the reaches: a label is when the boat has to be at a place.
#[derive_where(Clone, Copy)]
pub struct LatestDeparture<'a, B> {
    pub book: &'a B,
}

// Its other instance: the entry of the last passage, in the reverse order.
impl<'a, B: Book> Reckoning for LatestDeparture<'a, B> {
    type Label = Instant;

    ghost good = { λ r. no_sooner };

    ghost goes = { λ r. goes_in (B.Book.exits r.book.now) };

    ghost laws = { λ r. latest_laws (B.Book.gates r.book.now) (B.Book.exits r.book.now) (B.Book.lawful r.book.now) };

    ghost antisymmetric = { λ r. latest_antisymmetric };

    fn at_least(&self, x: Instant, y: Instant) -> bool {
        x >= y
    }

    fn go(&self, gate: Gate, x: Instant) -> Option<Instant> {
        let (entry, _) = self.book.last(gate, x)?;
        Some(entry)
    }
}
