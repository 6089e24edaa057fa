// What a call tells that is not declined, and how it is printed.
ghost use Rattle.std.specs.Prelude.{Some};
ghost use Rattle.examples.specs.Texts.{legs_text, done_text};

use planner::legs::{Answer, Leg};
use std::fmt;

// A slice can't print itself.
#[derive(Clone, Copy)]
struct Legs<'a> {
    legs: &'a [Leg],
}

impl fmt::Display for Legs<'_> {
    ghost output = { λ l. Some (legs_text l.legs.now) };

    fn fmt<W: fmt::Write>(&self, f: &mut fmt::Formatter<W>) -> fmt::Result {
        for leg in self.legs {
            write!(f, " {leg}")?;
        }
        Ok(())
    }
}

#[derive(Clone, Copy)]
pub(crate) enum Done<'a> {
    // a reach was laid, with this number
    Laid(u16),
    Posted,
    Lifted,
    // a journey, with its legs
    Found(Answer, &'a [Leg]),
}

impl fmt::Display for Done<'_> {
    ghost output = { λ d. Some (done_text d) };

    fn fmt<W: fmt::Write>(&self, f: &mut fmt::Formatter<W>) -> fmt::Result {
        match self {
            Done::Laid(number) => write!(f, "reach {number}"),
            Done::Posted => f.write_str("posted"),
            Done::Lifted => f.write_str("lifted"),
            Done::Found(answer, legs) => {
                let legs = Legs { legs };
                write!(f, "{answer}{legs}")
            }
        }
    }
}
