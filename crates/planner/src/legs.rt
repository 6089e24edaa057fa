// Legs and answers.
ghost use Rattle.std.specs.Prelude.{Some};
ghost use Rattle.planner.specs.Texts.{leg_text, answer_text};

use books::book::Instant;
use std::fmt;

// No question needs more legs: a longer way visits a place twice.
pub const MOST_LEGS: usize = 63;

// One leg of a journey: the number of its reach, when the boat enters the reach's gate, and when it comes out.
#[derive(Clone, Copy, PartialEq, Eq, Debug)]
pub struct Leg {
    pub reach: u16,
    pub entry: Instant,
    pub exit: Instant,
}

// An entry of a leg list that no question has written.
pub const NO_LEG: Leg = Leg {
    reach: 0,
    entry: 0,
    exit: 0,
};

impl fmt::Display for Leg {
    ghost output = { λ leg. Some (leg_text leg) };

    fn fmt<W: fmt::Write>(&self, f: &mut fmt::Formatter<W>) -> fmt::Result {
        write!(f, "({} {} {})", self.reach, self.entry, self.exit)
    }
}

// The figures of a journey: when it departs, when it arrives, and how many reaches it has.
#[derive(Clone, Copy, PartialEq, Eq, Debug)]
pub struct Answer {
    pub departure: Instant,
    pub arrival: Instant,
    pub reaches: u16,
}

impl fmt::Display for Answer {
    ghost output = { λ answer. Some (answer_text answer) };

    fn fmt<W: fmt::Write>(&self, f: &mut fmt::Formatter<W>) -> fmt::Result {
        write!(f, "{} {} {}", self.departure, self.arrival, self.reaches)
    }
}
