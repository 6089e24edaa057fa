// The next and the last passage through a gate of any book, with what the answers mean in plain words.
ghost use Rattle.std.specs.Prelude.{◌≡◌};
ghost use Rattle.books.specs.Meaning.{first_open, last_open, LeastOpen, GreatestOut, FirstOpenIsLeast, LastOpenIsGreatest};

use crate::book::{Book, Gate, Instant};

// The passage of a boat that is at the gate from t on: no open instant between t and its entry is passed over.
pub fn next_passage<B: Book>(book: &B, gate: Gate, t: Instant) -> Option<(Instant, Instant)>
    ensures answer { result ≡ first_open (B.Book.exits book.now gate) t }
    ensures least { LeastOpen (B.Book.exits book.now gate) t result }
    ensures always { FirstOpenIsLeast }
{
    book.first(gate, t)
}

// The passage of a boat that is out by t: no later entry comes out by then.
pub fn last_passage<B: Book>(book: &B, gate: Gate, t: Instant) -> Option<(Instant, Instant)>
    ensures answer { result ≡ last_open (B.Book.exits book.now gate) t }
    ensures greatest { GreatestOut (B.Book.exits book.now gate) t result }
    ensures always { LastOpenIsGreatest }
{
    book.last(gate, t)
}
