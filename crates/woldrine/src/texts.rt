// What is printed of passages and labels, whose types are of other crates.
ghost use Rattle.std.specs.Prelude.{Some};
ghost use Rattle.woldrine.specs.Texts.{passage_text, cell_text};

use books::book::Instant;
use std::fmt;

// The answer of `first` or `last`.
#[derive(Clone, Copy)]
pub struct Passage(pub Option<(Instant, Instant)>);

impl fmt::Display for Passage {
    ghost output = { λ p. Some (passage_text p.0) };

    fn fmt<W: fmt::Write>(&self, f: &mut fmt::Formatter<W>) -> fmt::Result {
        match self.0 {
            None => write!(f, "no passage"),
            Some((entry, exit)) => write!(f, "enters {entry}, exits {exit}"),
        }
    }
}

// The label of a place in a row of a search, if it has one.
#[derive(Clone, Copy)]
pub struct Cell(pub Option<u16>);

impl fmt::Display for Cell {
    ghost output = { λ c. Some (cell_text c.0) };

    fn fmt<W: fmt::Write>(&self, f: &mut fmt::Formatter<W>) -> fmt::Result {
        match self.0 {
            None => write!(f, "-"),
            Some(label) => write!(f, "{label}"),
        }
    }
}
