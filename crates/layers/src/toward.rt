// Which way a gate is asked: from an instant on for what comes later, or by an instant for what comes earlier.
ghost use Rattle.std.specs.Prelude.{◌≡◌};
ghost use Rattle.layers.specs.Toward.{answer_of};

use books::book::{Book, Gate, Instant};

// A value says which of the two; a closure would carry the same choice.
#[derive(Clone, Copy)]
pub(crate) enum Toward {
    Later,
    Earlier,
}

impl Toward {
    // What the book answers. Inlined, so that a caller that knows the way pays for no choice.
    #[inline(always)]
    pub(crate) fn ask<B: Book>(self, book: &B, gate: Gate, t: Instant) -> Option<(Instant, Instant)>
        ensures { result ≡ answer_of self (B.Book.exits book.now gate) t }
    {
        match self {
            Toward::Later => book.first(gate, t),
            Toward::Earlier => book.last(gate, t),
        }
    }
}
