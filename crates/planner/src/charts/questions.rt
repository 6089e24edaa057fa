// The questions.
ghost use Rattle.std.specs.Prelude.{◌≡◌, length};
ghost use Rattle.planner.specs.Charts.{declined_or};
ghost use Rattle.planner.specs.Headings.{figures_by};
ghost use Rattle.planner.specs.Outcomes.{told_arrival, told_departure, found_or_5, foremost_reply, fewest_reply, latest_reply, ForemostOutcome, FewestOutcome, LatestOutcome, told_by, OutcomeBy};
ghost use Rattle.planner.specs.Refusals.{question_fault};

use crate::charts::Planner;
use crate::headings::Heading;
use crate::legs::{Answer, Leg};
use crate::reckonings::{EarliestArrival, LatestDeparture};
use crate::refusals::Refusal;
use crate::trips::Trip;
use crate::ways::{Aim, Course};
use books::book::{Book, Instant};
use layers::notices::Noticed;

impl<B: Book> Planner<B> {
    // The best journey of a trip, by a heading of a search.
    fn answer<H: Heading>(
        &self,
        by: &H,
        aim: Aim,
        trip: Trip,
        cells: &mut [Option<Instant>],
        legs: &mut [Leg],
    ) -> Result<Answer, Refusal>
        ensures reply { told_by H.heads result ≡ declined_or (question_fault (length cells.old) (length legs.old) trip.from trip.to trip.instant) (found_or_5 (figures_by H.heads aim self.now.reaches.items (H.exits by.now) trip.from trip.to trip.instant)) }
        ensures journey { OutcomeBy H.heads aim self.now.reaches.items (H.exits by.now) trip.from trip.to trip.instant cells.old cells.new legs.old legs.new result }
    {
        trip.fit(cells.len(), legs.len())?;
        let course = Course {
            by,
            reaches: &self.reaches,
        };
        course.way(aim, trip, cells, legs).ok_or(Refusal::NoJourney)
    }

    // Each of the three questions is a call of its own; the cells and the leg list are lent, each of any length.

    // The earliest arrival of the journeys that are ready at an instant, and then the fewest reaches.
    pub fn foremost(
        &self,
        trip: Trip,
        cells: &mut [Option<Instant>],
        legs: &mut [Leg],
    ) -> Result<Answer, Refusal>
        ensures reply { told_arrival result ≡ foremost_reply (length cells.old) (length legs.old) self.now.reaches.items (⟦<Noticed<B> as Book>⟧.exits self.now.noticed) trip.from trip.to trip.instant }
        ensures journey { ForemostOutcome self.now.reaches.items (⟦<Noticed<B> as Book>⟧.exits self.now.noticed) trip.from trip.to trip.instant cells.old cells.new legs.old legs.new result }
    {
        let by = EarliestArrival {
            book: &self.noticed,
        };
        self.answer(&by, Aim::Time, trip, cells, legs)
    }

    // The fewest reaches of the journeys that are ready at an instant, and then the earliest arrival.
    pub fn fewest(
        &self,
        trip: Trip,
        cells: &mut [Option<Instant>],
        legs: &mut [Leg],
    ) -> Result<Answer, Refusal>
        ensures reply { told_arrival result ≡ fewest_reply (length cells.old) (length legs.old) self.now.reaches.items (⟦<Noticed<B> as Book>⟧.exits self.now.noticed) trip.from trip.to trip.instant }
        ensures journey { FewestOutcome self.now.reaches.items (⟦<Noticed<B> as Book>⟧.exits self.now.noticed) trip.from trip.to trip.instant cells.old cells.new legs.old legs.new result }
    {
        let by = EarliestArrival {
            book: &self.noticed,
        };
        self.answer(&by, Aim::Reaches, trip, cells, legs)
    }

    // The latest departure of the journeys that arrive by an instant, and then the fewest reaches.
    pub fn latest(
        &self,
        trip: Trip,
        cells: &mut [Option<Instant>],
        legs: &mut [Leg],
    ) -> Result<Answer, Refusal>
        ensures reply { told_departure result ≡ latest_reply (length cells.old) (length legs.old) self.now.reaches.items (⟦<Noticed<B> as Book>⟧.exits self.now.noticed) trip.from trip.to trip.instant }
        ensures journey { LatestOutcome self.now.reaches.items (⟦<Noticed<B> as Book>⟧.exits self.now.noticed) trip.from trip.to trip.instant cells.old cells.new legs.old legs.new result }
    {
        let by = LatestDeparture {
            book: &self.noticed,
        };
        self.answer(&by, Aim::Time, trip, cells, legs)
    }
}
