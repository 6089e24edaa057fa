// Journeys over any book, read off the rows of a search.
ghost use Rattle.std.specs.Prelude.{◌≡◌, ℕ, ◌<◌, ◌≤◌, None, length};
ghost use Rattle.search.specs.WayBack.{row_of};
ghost use Rattle.planner.specs.Charts.{Charted};
ghost use Rattle.planner.specs.Figures.{meets};
ghost use Rattle.planner.specs.Headings.{FitsBy, rule_by, UnbeatenBy, label_in, figures_from, figures_by};
ghost use Rattle.planner.specs.Outcomes.{LookedFor};
ghost use Rattle.planner.specs.Refusals.{question_fault};
ghost use Rattle.planner.specs.Routes.{departs, arrives, figures};
ghost use Rattle.planner.specs.Ways.{wanted_of, LeastRow, FilledBy, ReachedBy, Came, LegRead, ReadBack, in_order};

use crate::headings::Heading;
use crate::legs::{Answer, Leg};
use crate::trips::Trip;
use books::book::Instant;
use search::reaches::{Direction, Place, Reach};
use search::rows::Search;

// What counts first in a journey; the other counts second.
#[derive(Clone, Copy)]
pub(crate) enum Aim {
    // the earliest arrival, or the latest departure
    Time,
    // the fewest reaches
    Reaches,
}

// Whether a label is the one wanted; where none is named, any label is.
fn is_wanted(label: Option<Instant>, wanted: Option<Instant>) -> bool
    ensures { result ≡ meets wanted label }
{
    label.is_some_and(|x| wanted.is_none_or(|z| x == z))
}

// The label of a place in a row. The cells are lent as one slice, so a row is told by its number.
pub(crate) fn label_at(cells: &[Option<Instant>], row: usize, place: Place) -> Option<Instant>
    requires { row < 64 }
    ensures { result ≡ row_of cells.now row place }
{
    *cells.get(64 * row + usize::from(place))?
}

// The label to look for at a place: that of the last row, or any. A closure in place of the aim would be no plainer: it would
// read the same row.
fn wanted_label(aim: Aim, cells: &[Option<Instant>], last: usize, place: Place) -> Option<Instant>
    requires { last < 64 }
    ensures { result ≡ wanted_of aim (row_of cells.now last place) }
{
    match aim {
        Aim::Time => label_at(cells, last, place),
        Aim::Reaches => None,
    }
}

// The least row, up to the last, in which a place has a label that is wanted.
fn least_row(aim: Aim, cells: &[Option<Instant>], last: usize, place: Place) -> Option<usize>
    requires { last < 64 }
    ensures { LeastRow cells.now last place (wanted_of aim (row_of cells.now last place)) result }
{
    let wanted = wanted_label(aim, cells, last, place);
    (0..last + 1).find(|k| is_wanted(label_at(cells, *k, place), wanted))
}

// When some legs depart, which is the entry of the first; without a leg, t.
fn departing(legs: &[Leg], t: Instant) -> Instant
    ensures { result ≡ departs t legs.now }
{
    legs.first().map_or(t, |leg| leg.entry)
}

// When some legs arrive, which is the exit of the last; without a leg, t. It takes the other end and the other field, so one
// function for both would be no plainer.
fn arriving(legs: &[Leg], t: Instant) -> Instant
    ensures { result ≡ arrives t legs.now }
{
    legs.last().map_or(t, |leg| leg.exit)
}

// The figures of some legs; without a leg, of the instant t.
fn figures_of(legs: &[Leg], t: Instant) -> Answer
    requires { length legs.now ≤ 63 }
    ensures { result ≡ figures t legs.now }
{
    Answer {
        departure: departing(legs, t),
        arrival: arriving(legs, t),
        reaches: legs.len() as u16,
    }
}

// A heading over the reaches laid, which are 256 at most, between the 64 places.
#[derive(Drop)]
pub(crate) struct Course<'a, H> {
    pub by: &'a H,
    pub reaches: &'a [Reach],
    ghost few: { length reaches.now ≤ 256 },
    ghost charted: { Charted reaches.now },
}

impl<'a, H: Heading> Course<'a, H> {
    // The search over the reaches, in the heading's direction.
    pub(crate) fn search(&self) -> Search<'a, H>
        ensures by { result.by.now ≡ self.now.by.now }
        ensures direction { result.direction ≡ H.heads }
        ensures reaches { result.reaches.now ≡ self.now.reaches.now }
    {
        Search {
            by: self.by,
            direction: self.by.direction(),
            reaches: self.reaches,
        }
    }

    // Fills the cells from the place where the search of a trip starts, and says which row is the last.
    pub(crate) fn fill(&self, trip: Trip, cells: &mut [Option<Instant>]) -> usize
        requires { 4096 ≤ length cells.old }
        ensures { FilledBy H.heads self.now.reaches.now (H.exits self.now.by.now) trip.from trip.to trip.instant cells.new result }
    {
        let search = self.search();
        let Trip { from, instant, .. } = trip.turn(search.direction);
        search.run(from, instant, cells).unwrap()
    }

    // The leg by which the label of a place came into a row, and the place from which the search went over its reach.
    fn leg(&self, cells: &[Option<Instant>], row: usize, place: Place) -> (Leg, Place)
        requires inner { 0 < row }
        requires reached { (at x z : ℕ) × ReachedBy H.heads self.now.reaches.now (H.exits self.now.by.now) cells.now at x row place z }
        ensures { (at x z : ℕ) → ReachedBy H.heads self.now.reaches.now (H.exits self.now.by.now) cells.now at x row place z → LegRead H.heads self.now.reaches.now (H.exits self.now.by.now) cells.now at x row place z result.0 result.1 }
    {
        let search = self.search();
        let number = search.back_step(cells, row, place).unwrap();
        let reach = self.reaches[number];
        let start = search.direction.turn(reach).from;
        let here = label_at(cells, row - 1, start).unwrap();
        let (entry, exit) = self.by.passage(reach.gate, here).unwrap();
        let leg = Leg {
            reach: number as u16,
            entry,
            exit,
        };
        (leg, start)
    }

    // Fills the list with the legs of the way that leads to a place in the row of as many reaches.
    fn write(&self, cells: &[Option<Instant>], place: Place, legs: &mut [Leg])
        requires { (at x z : ℕ) × ReachedBy H.heads self.now.reaches.now (H.exits self.now.by.now) cells.now at x (length legs.old) place z }
        ensures { (at x z : ℕ) → ReachedBy H.heads self.now.reaches.now (H.exits self.now.by.now) cells.now at x (length legs.old) place z → ReadBack H.heads self.now.reaches.now (H.exits self.now.by.now) at x (in_order H.heads legs.new) place z }
    {
        let row = legs.len();
        let mut end = place;
        for (i, leg) in legs.iter_mut().enumerate() {
            let (read, start) = self.leg(cells, row - i, end);
            *leg = read;
            end = start;
        }
        // read back, the legs along the reaches stand last first
        if let Direction::Along = self.by.direction() {
            legs.reverse();
        }
    }

    // The best journey of a trip, with its legs at the head of the leg list.
    pub(crate) fn way(
        &self,
        aim: Aim,
        trip: Trip,
        cells: &mut [Option<Instant>],
        legs: &mut [Leg],
    ) -> Option<Answer>
        requires fits { None ≡ question_fault (length cells.old) (length legs.old) trip.from trip.to trip.instant }
        ensures found { LookedFor self.now.reaches.now (H.exits self.now.by.now) trip.from trip.to trip.instant (FitsBy H.heads trip.instant) (λ ans. UnbeatenBy H.heads aim self.now.reaches.now (H.exits self.now.by.now) trip.from trip.to trip.instant (label_in H.heads ans) ans.reaches) (rule_by H.heads self.now.reaches.now (H.exits self.now.by.now) trip.instant) legs.old legs.new result }
        ensures figures { figures_from H.heads result ≡ figures_by H.heads aim self.now.reaches.now (H.exits self.now.by.now) trip.from trip.to trip.instant }
    {
        let last = self.fill(trip, cells);
        let end = trip.turn(self.by.direction()).to;
        let row = least_row(aim, cells, last, end)?;
        let head = &mut legs[..row];
        self.write(cells, end, head);
        Some(figures_of(head, trip.instant))
    }
}
