// Plans a delivery through a timed gate and a tide gate, under a notice and without it, and checks books that have faults.
#![tactic(auto)]

use crate::calls::{fewest, foremost, latest, lay, lift, post};
use books::book::{Book, Instant};
use books::tides::TideBook;
use books::windows::{Window, WindowBook};
use layers::notices::Notice;
use layers::two_books::TwoBooks;
use planner::charts::Planner;
use planner::legs::{Leg, NO_LEG};
use planner::trips::Trip;
use planner::worked::worked_examples;
use samples::{Sample, TIDE, WINDOW, faulty_books};
use search::reaches::Reach;
use std::io;

mod calls;
mod texts;

const SHUT: Notice = Notice {
    gate: 2,
    begin: 85,
    end: 200,
};

// Three ways between three places; some calls are declined.
fn lay_chart<B: Book>(rt: &HostRuntime, planner: &mut Planner<B>) -> io::Result<()> {
    for (from, to, gate) in [(0, 1, 0), (1, 2, 2), (0, 64, 1), (0, 2, 3), (0, 2, 1)] {
        lay(rt, planner, Reach { from, to, gate })?;
    }
    Ok(())
}

// The delivery from place 0 to place 2, with a notice on the tide gate put up and taken down.
fn deliver<B: Book>(
    rt: &HostRuntime,
    planner: &mut Planner<B>,
    cells: &mut [Option<Instant>],
    legs: &mut [Leg],
) -> io::Result<()> {
    let trip = Trip {
        from: 0,
        to: 2,
        instant: 0,
    };
    let _ = foremost(rt, planner, trip, cells, legs)?;
    let _ = fewest(rt, planner, trip, cells, legs)?;
    let due = Trip {
        instant: 300,
        ..trip
    };
    let _ = latest(rt, planner, due, cells, legs)?;
    post(rt, planner, SHUT)?;
    post(rt, planner, SHUT)?;
    let _ = foremost(rt, planner, trip, cells, legs)?;
    lift(rt, planner, SHUT)?;
    lift(rt, planner, SHUT)?;
    let _ = foremost(rt, planner, trip, cells, legs)?;
    let astray = Trip {
        from: 1,
        to: 0,
        instant: 0,
    };
    let _ = foremost(rt, planner, astray, cells, legs)?;
    let stay = Trip {
        from: 3,
        to: 3,
        instant: 7,
    };
    let _ = latest(rt, planner, stay, cells, legs)?;
    let late = Trip {
        instant: 20161,
        ..trip
    };
    let _ = foremost(rt, planner, late, cells, legs)?;
    Ok(())
}

fn plan(rt: &HostRuntime) -> io::Result<()> {
    let passages = [20, 40];
    let windows = [
        WINDOW,
        Window {
            gate: 1,
            begin: 400,
            end: 440,
        },
    ];
    let tides = [TIDE];
    let timed = WindowBook::new(&passages, &windows);
    let tidal = TideBook::new(&tides);
    let checks = [
        Sample {
            name: "the timed gates and their windows",
            found: timed.check(),
        },
        Sample {
            name: "the tide gate",
            found: tidal.check(),
        },
    ];
    for check in checks {
        println!(rt; "{check}")?;
    }
    let mut planner = Planner::new(rt.alloc(), TwoBooks::new(timed, tidal))?;
    let mut cells = [None; 4096];
    let mut legs = [NO_LEG; 63];
    lay_chart(rt, &mut planner)?;
    deliver(rt, &mut planner, &mut cells, &mut legs)
}

// Each program lists its own parts.
fn main(rt: HostRuntime) -> io::Result<()> {
    plan(&rt)?;
    for sample in faulty_books() {
        println!(rt; "{sample}")?;
    }
    let count = worked_examples();
    println!(rt; "{count} worked examples hold")
}
