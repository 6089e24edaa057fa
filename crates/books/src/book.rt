ghost use Rattle.std.specs.Prelude.{◌≡◌, ℕ, Option};
ghost use Rattle.books.specs.Meaning.{Exits, Lawful, first_open, last_open};

// A whole minute of one fortnight.
pub type Instant = u16;

// The number of a gate in its book.
pub type Gate = u16;

// Instants are 0 to this one.
pub const LAST_INSTANT: Instant = 20160;

// A book is a timetable of gates, numbered from 0: it tells when a gate lets a boat in, and when the
// boat comes out. `gates` and `exits` are its meaning, and `lawful` the laws that it owes.
pub trait Book {
    ghost gates: { Self → ℕ };

    ghost exits: { Self → Exits };

    ghost lawful: { (b : Self) → Lawful (gates b) (exits b) };

    // The number of gates.
    fn count(&self) -> Gate
        ensures { result ≡ gates self.now };

    // A gate and an instant are all that a book is asked, by two questions.
    // The least open instant at or after t, with its exit.
    fn first(&self, gate: Gate, t: Instant) -> Option<(Instant, Instant)>
        ensures { result ≡ first_open (exits self.now gate) t };

    // The greatest open instant whose exit is at or before t, with that exit.
    fn last(&self, gate: Gate, t: Instant) -> Option<(Instant, Instant)>
        ensures { result ≡ last_open (exits self.now gate) t };
}
