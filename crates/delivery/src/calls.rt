// Calls of the planner, each printed with its reply.
ghost use Rattle.std.specs.Prelude.{◌≡◌, length, IfOk};
ghost use Rattle.layers.specs.Notices.{after_post, after_lift, noticed_exits};
ghost use Rattle.planner.specs.Charts.{after_lay};
ghost use Rattle.planner.specs.Outcomes.{told_arrival, told_departure, foremost_reply, fewest_reply, latest_reply};

use crate::texts::{Answered, Laid, LegText};
use books::book::{Book, Instant};
use layers::notices::Notice;
use layers::replies::Reply;
use planner::charts::Planner;
use planner::legs::{Answer, Leg};
use planner::refusals::Refusal;
use planner::trips::Trip;
use search::reaches::Reach;
use std::io;

// Planner, cells and legs are parameters of their own: as a struct's fields, each function would have to promise that it leaves
// the others alone. `lay`, `post` and `lift` are three functions: one for all would take six parameters for its two lines.
pub(crate) fn lay<B: Book>(
    rt: &HostRuntime,
    planner: &mut Planner<B>,
    reach: Reach,
) -> io::Result<()>
    ensures { planner.new.reaches.items ≡ after_lay (B.Book.gates planner.old.noticed.book) planner.old.reaches.items reach }
{
    let outcome = planner.lay(reach).map(Laid);
    println!(rt; "lay {reach}: {}", Reply { outcome })
}

pub(crate) fn post<B: Book>(
    rt: &HostRuntime,
    planner: &mut Planner<B>,
    notice: Notice,
) -> io::Result<()>
    ensures { planner.new.noticed.notices.items ≡ after_post (B.Book.gates planner.old.noticed.book) planner.old.noticed.notices.items notice }
{
    let outcome = planner.post(notice).map(|()| "posted");
    println!(rt; "post {notice}: {}", Reply { outcome })
}

pub(crate) fn lift<B: Book>(
    rt: &HostRuntime,
    planner: &mut Planner<B>,
    notice: Notice,
) -> io::Result<()>
    ensures { planner.new.noticed.notices.items ≡ after_lift planner.old.noticed.notices.items notice }
{
    let outcome = planner.lift(notice).map(|()| "lifted");
    println!(rt; "lift {notice}: {}", Reply { outcome })
}

// Prints a question, by its name and how its instant is meant, with the reply and the legs.
fn show(
    rt: &HostRuntime,
    name: &str,
    meant: &str,
    trip: Trip,
    outcome: Result<Answer, Refusal>,
    legs: &[Leg],
) -> io::Result<()> {
    let Trip { from, to, instant } = trip;
    let reply = Reply {
        outcome: outcome.map(Answered),
    };
    println!(rt; "{name} from {from} to {to}, {meant} at {instant}: {reply}")?;
    if let Ok(answer) = outcome {
        for leg in legs.iter().take(usize::from(answer.reaches)) {
            println!(rt; "    {}", LegText(*leg))?;
        }
    }
    Ok(())
}

// The three questions share `show`; with the call passed in as well, one function would have seven parameters.
pub(crate) fn foremost<B: Book>(
    rt: &HostRuntime,
    planner: &Planner<B>,
    trip: Trip,
    cells: &mut [Option<Instant>],
    legs: &mut [Leg],
) -> io::Result<Result<Answer, Refusal>>
    ensures { IfOk result (λ a. told_arrival a ≡ foremost_reply (length cells.old) (length legs.old) planner.now.reaches.items (noticed_exits planner.now.noticed.notices.items (B.Book.exits planner.now.noticed.book)) trip.from trip.to trip.instant) }
{
    let outcome = planner.foremost(trip, cells, legs);
    show(rt, "foremost", "ready", trip, outcome, legs)?;
    Ok(outcome)
}

pub(crate) fn fewest<B: Book>(
    rt: &HostRuntime,
    planner: &Planner<B>,
    trip: Trip,
    cells: &mut [Option<Instant>],
    legs: &mut [Leg],
) -> io::Result<Result<Answer, Refusal>>
    ensures { IfOk result (λ a. told_arrival a ≡ fewest_reply (length cells.old) (length legs.old) planner.now.reaches.items (noticed_exits planner.now.noticed.notices.items (B.Book.exits planner.now.noticed.book)) trip.from trip.to trip.instant) }
{
    let outcome = planner.fewest(trip, cells, legs);
    show(rt, "fewest", "ready", trip, outcome, legs)?;
    Ok(outcome)
}

pub(crate) fn latest<B: Book>(
    rt: &HostRuntime,
    planner: &Planner<B>,
    trip: Trip,
    cells: &mut [Option<Instant>],
    legs: &mut [Leg],
) -> io::Result<Result<Answer, Refusal>>
    ensures { IfOk result (λ a. told_departure a ≡ latest_reply (length cells.old) (length legs.old) planner.now.reaches.items (noticed_exits planner.now.noticed.notices.items (B.Book.exits planner.now.noticed.book)) trip.from trip.to trip.instant) }
{
    let outcome = planner.latest(trip, cells, legs);
    show(rt, "latest", "due", trip, outcome, legs)?;
    Ok(outcome)
}
