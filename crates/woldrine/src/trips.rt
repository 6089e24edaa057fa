// Taking a boat through gates, each step printed.
ghost use Rattle.std.specs.Prelude.{◌≡◌, Some, IfOk};
ghost use Rattle.books.specs.Meaning.{first_open, last_open};
ghost use Rattle.woldrine.specs.Texts.{gate_text};
ghost use Rattle.woldrine.specs.Trips.{out_at, in_by};

use crate::texts::Passage;
use books::book::{Book, Gate, Instant};
use books::passages::{last_passage, next_passage};
use std::{fmt, io};

// A gate that is asked, with the word that its kind is printed by.
#[derive_where(Clone, Copy)]
pub struct Asked<'a, B> {
    pub kind: &'a str,
    pub book: &'a B,
    pub gate: Gate,
}

impl<B> fmt::Display for Asked<'_, B> {
    ghost output = { λ asked. Some (gate_text asked.kind.now asked.gate) };

    fn fmt<W: fmt::Write>(&self, f: &mut fmt::Formatter<W>) -> fmt::Result {
        write!(f, "{} gate {}", self.kind, self.gate)
    }
}

// One function for both directions is no plainer: the call, both words and what is promised differ.
impl<B: Book> Asked<'_, B> {
    // Asks for the next passage.
    pub fn next(self, rt: &HostRuntime, t: Instant) -> io::Result<Option<(Instant, Instant)>>
        ensures { IfOk result (λ a. a ≡ first_open (B.Book.exits self.entry.book.now self.entry.gate) t) }
    {
        let times = next_passage(self.book, self.gate, t);
        println!(rt; "first of {self} from {t}: {}", Passage(times))?;
        Ok(times)
    }

    // Asks for the last passage.
    pub fn last(self, rt: &HostRuntime, t: Instant) -> io::Result<Option<(Instant, Instant)>>
        ensures { IfOk result (λ a. a ≡ last_open (B.Book.exits self.entry.book.now self.entry.gate) t) }
    {
        let times = last_passage(self.book, self.gate, t);
        println!(rt; "last of {self} by {t}: {}", Passage(times))?;
        Ok(times)
    }
}

// A way through two gates, one after the other.
#[derive_where(Clone, Copy)]
pub struct Way<'a, N, F> {
    pub near: Asked<'a, N>,
    pub far: Asked<'a, F>,
}

// Both directions in one function are no plainer: they take the gates in opposite orders, and differ in each call.
impl<N: Book, F: Book> Way<'_, N, F> {
    // Through both gates; when the boat comes out.
    pub fn out(self, rt: &HostRuntime, ready: Instant) -> io::Result<Option<Instant>>
        ensures { IfOk result (λ a. a ≡ out_at (N.Book.exits self.entry.near.book.now self.entry.near.gate) (F.Book.exits self.entry.far.book.now self.entry.far.gate) ready) }
    {
        // a `?` can't pass the `None` on, since the answer is a `Result`
        let Some((_, between)) = self.near.next(rt, ready)? else {
            return Ok(None);
        };
        Ok(self.far.next(rt, between)?.map(|(_, exit)| exit))
    }

    // Backwards from a due instant; when the boat has to enter the near gate.
    pub fn back(self, rt: &HostRuntime, due: Instant) -> io::Result<Option<Instant>>
        ensures { IfOk result (λ a. a ≡ in_by (N.Book.exits self.entry.near.book.now self.entry.near.gate) (F.Book.exits self.entry.far.book.now self.entry.far.gate) due) }
    {
        // as in `out`
        let Some((between, _)) = self.far.last(rt, due)? else {
            return Ok(None);
        };
        Ok(self.near.last(rt, between)?.map(|(entry, _)| entry))
    }
}
