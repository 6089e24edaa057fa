// The fastest journey: departures outside, rounds of reaches inside.
ghost use Rattle.std.specs.Prelude.{◌≤◌, length};
ghost use Rattle.search.specs.Reaches.{all_turned};
ghost use Rattle.search.specs.Walks.{Unbeaten};
ghost use Rattle.search.specs.declared.reaches.Direction.TheVariants.{Along};
ghost use Rattle.planner.specs.Departures.{ArrivesFirst, Arrival, FastestChoice};
ghost use Rattle.planner.specs.Reckonings.{no_later, comes_out};
ghost use Rattle.planner.specs.Refusals.{Fits};

use crate::reckonings::{EarliestArrival, LatestDeparture};
use crate::trips::Trip;
use crate::ways::{Course, label_at};
use books::book::{Book, Instant, LAST_INSTANT};
use search::rows::first_row;

// These functions ask of a trip that it fits, each at another instant, so no type holds that.

// The latest departure that still arrives at e, where a journey that is ready for the trip does.
fn leaving_for<B: Book>(
    back: &Course<LatestDeparture<B>>,
    trip: Trip,
    e: Instant,
    cells: &mut [Option<Instant>],
) -> Instant
    requires fits { Fits trip.from trip.to trip.instant }
    requires long { 4096 ≤ length cells.old }
    requires there { ArrivesFirst back.now.reaches.now (B.Book.exits back.now.by.now.book.now) trip.from trip.to trip.instant e }
    ensures since { trip.instant ≤ result }
    ensures first { ArrivesFirst back.now.reaches.now (B.Book.exits back.now.by.now.book.now) trip.from trip.to result e }
{
    let due = Trip { instant: e, ..trip };
    let last = back.fill(due, cells);
    label_at(cells, last, trip.from).unwrap()
}

// The earliest arrival, in the last row of a search from where the trip starts.
fn earliest_arrival<B: Book>(
    ahead: &Course<EarliestArrival<B>>,
    trip: Trip,
    cells: &[Option<Instant>],
    last: usize,
) -> Option<Instant>
    requires fits { Fits trip.from trip.to trip.instant }
    requires searched { (last ≤ 63) × Unbeaten no_later (comes_out (B.Book.exits ahead.now.by.now.book.now)) (all_turned Along ahead.now.reaches.now) trip.from trip.instant cells.now last }
    ensures { Arrival ahead.now.reaches.now (B.Book.exits ahead.now.by.now.book.now) trip.from trip.to trip.instant result }
{
    label_at(cells, last, trip.to)
}

// The departure of the fastest journey that is ready for the trip; of equally fast ones, the earliest. The inner loop is that of
// `Search::run`, held here so that one function has both loops. They keep their labels: a round that betters no place ends the
// one, a departure with no arrival the other.
pub(crate) fn fastest_departure<B: Book>(
    ahead: &Course<EarliestArrival<B>>,
    trip: Trip,
    cells: &mut [Option<Instant>],
) -> Option<Instant>
    requires fits { Fits trip.from trip.to trip.instant }
    requires long { 4096 ≤ length cells.old }
    ensures { FastestChoice ahead.now.reaches.now (B.Book.exits ahead.now.by.now.book.now) trip.from trip.to trip.instant result }
{
    let by = LatestDeparture {
        book: ahead.by.book,
    };
    let back = Course {
        by: &by,
        reaches: ahead.reaches,
    };
    let search = ahead.search();
    let mut best = None;
    // before a journey is found, more than any takes
    let mut time = LAST_INSTANT + 1;
    let mut d = trip.instant;
    'departures: while time > 0 && d <= LAST_INSTANT {
        let now = Trip { instant: d, ..trip };
        let _ = first_row(cells, trip.from, d);
        let mut last = 0;
        'rounds: for k in 1..64 {
            let told = search.next_row(cells, k);
            last = k;
            if !told {
                break 'rounds;
            }
        }
        let Some(arrival) = earliest_arrival(ahead, now, cells, last) else {
            break 'departures;
        };
        if arrival - d < time {
            let leaves = leaving_for(&back, now, arrival, cells);
            best = Some(leaves);
            time = arrival - leaves;
        }
        d = arrival - time + 1;
    }
    best
}
