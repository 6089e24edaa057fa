// The two headings of a search: along the reaches and against them.
ghost use Rattle.std.specs.Prelude.{◌≡◌, ℕ, refl};
ghost use Rattle.books.specs.Meaning.{Exits, Lawful};
ghost use Rattle.search.specs.declared.reaches.Direction.{Direction as Heads};
ghost use Rattle.search.specs.declared.reaches.Direction.TheVariants.{Along, Against};
ghost use Rattle.planner.specs.Headings.{good_of, passage_of, goes_of};

use crate::reckonings::{EarliestArrival, LatestDeparture};
use books::book::{Book, Gate, Instant};
use search::reaches::Direction;
use search::reckoning::Reckoning;

// A heading is a reckoning that goes along the reaches or against them, by the passages that a book gives.
pub(crate) trait Heading: Reckoning<Label = Instant> {
    ghost heads: { Heads };

    ghost gates: { Self → ℕ };

    ghost exits: { Self → Exits };

    // The direction.
    fn direction(&self) -> Direction
        ensures { result ≡ heads };

    // The passage of a boat with a label through the gate.
    fn passage(&self, gate: Gate, label: Instant) -> Option<(Instant, Instant)>
        ensures { result ≡ passage_of heads (exits self.now) gate label };

    ghost lawful: { (r : Self) → Lawful (gates r) (exits r) };

    ghost good_is: { (r : Self) → Self.good r ≡ good_of heads };

    ghost goes_is: { (r : Self) → Self.goes r ≡ goes_of heads (exits r) };
}

impl<'a, B: Book> Heading for EarliestArrival<'a, B> {
    ghost heads = { Along };

    ghost gates = { λ r. B.Book.gates r.book.now };

    ghost exits = { λ r. B.Book.exits r.book.now };

    ghost lawful = { λ r. B.Book.lawful r.book.now };

    ghost good_is = { λ r. refl };

    ghost goes_is = { λ r. refl };

    fn direction(&self) -> Direction {
        Direction::Along
    }

    fn passage(&self, gate: Gate, label: Instant) -> Option<(Instant, Instant)> {
        self.book.first(gate, label)
    }
}

impl<'a, B: Book> Heading for LatestDeparture<'a, B> {
    ghost heads = { Against };

    ghost gates = { λ r. B.Book.gates r.book.now };

    ghost exits = { λ r. B.Book.exits r.book.now };

    ghost lawful = { λ r. B.Book.lawful r.book.now };

    ghost good_is = { λ r. refl };

    ghost goes_is = { λ r. refl };

    fn direction(&self) -> Direction {
        Direction::Against
    }

    fn passage(&self, gate: Gate, label: Instant) -> Option<(Instant, Instant)> {
        self.book.last(gate, label)
    }
}
