// Trips.
ghost use Rattle.std.specs.Prelude.{◌≡◌};
ghost use Rattle.planner.specs.Charts.{declined};
ghost use Rattle.planner.specs.Headings.{start_of, end_of};
ghost use Rattle.planner.specs.Refusals.{question_fault};

use crate::legs::MOST_LEGS;
use crate::refusals::Refusal;
use books::book::{Instant, LAST_INSTANT};
use search::reaches::{Direction, PLACES, Place};
use search::rows::CELLS;

// What a question asks for: from which place to which, and ready or due at which instant.
#[derive(Clone, Copy, PartialEq, Eq, Debug)]
pub struct Trip {
    pub from: Place,
    pub to: Place,
    pub instant: Instant,
}

impl Trip {
    // Whether a question about the trip can be asked with so many scratch cells and so many entries of a leg list, before any
    // journey is looked for.
    pub(crate) fn fit(self, cells: usize, legs: usize) -> Result<(), Refusal>
        ensures { declined result ≡ question_fault cells legs self.from self.to self.instant }
    {
        if cells < CELLS {
            return Err(Refusal::FewCells);
        }
        if legs < MOST_LEGS {
            return Err(Refusal::FewLegs);
        }
        if self.from >= PLACES || self.to >= PLACES {
            return Err(Refusal::NoPlace);
        }
        if self.instant > LAST_INSTANT {
            return Err(Refusal::NoInstant);
        }
        Ok(())
    }

    // The trip as a search in a direction goes over it, which is one of two cases, as in the definitions.
    pub(crate) fn turn(self, direction: Direction) -> Trip
        ensures from { result.from ≡ start_of direction self.from self.to }
        ensures to { result.to ≡ end_of direction self.from self.to }
        ensures instant { result.instant ≡ self.instant }
    {
        match direction {
            Direction::Along => self,
            // against the reaches, a search starts where the trip ends
            Direction::Against => Trip {
                from: self.to,
                to: self.from,
                ..self
            },
        }
    }
}
