// What is printed of reaches laid, answers and legs. The planner's answers and legs print themselves in other words.
ghost use Rattle.std.specs.Prelude.{Some};
ghost use Rattle.delivery.specs.Texts.{laid_text, answer_text, leg_text};

use planner::legs::{Answer, Leg};
use std::fmt;

// The number of the reach that was laid, which alone would print as a plain number.
#[derive(Clone, Copy)]
pub struct Laid(pub u16);

impl fmt::Display for Laid {
    ghost output = { λ laid. Some (laid_text laid.0) };

    fn fmt<W: fmt::Write>(&self, f: &mut fmt::Formatter<W>) -> fmt::Result {
        write!(f, "reach {}", self.0)
    }
}

// The answer to a question.
#[derive(Clone, Copy)]
pub struct Answered(pub Answer);

impl fmt::Display for Answered {
    ghost output = { λ answered. Some (answer_text answered.0) };

    fn fmt<W: fmt::Write>(&self, f: &mut fmt::Formatter<W>) -> fmt::Result {
        let Answer {
            departure,
            arrival,
            reaches,
        } = self.0;
        write!(
            f,
            "departs {departure}, arrives {arrival}, reaches {reaches}"
        )
    }
}

// One leg of a journey.
#[derive(Clone, Copy)]
pub struct LegText(pub Leg);

impl fmt::Display for LegText {
    ghost output = { λ text. Some (leg_text text.0) };

    fn fmt<W: fmt::Write>(&self, f: &mut fmt::Formatter<W>) -> fmt::Result {
        let Leg { reach, entry, exit } = self.0;
        write!(f, "reach {reach}: enters {entry}, exits {exit}")
    }
}
