// Takes a boat through a timed gate and a tide gate, out and back, then the same under notices, and checks
// books that have faults.
#![tactic(auto)]

use crate::charts::show_search;
use crate::notes::{lift, post};
use crate::trips::{Asked, Way};
use books::book::{Book, Gate, Instant};
use books::tides::TideBook;
use books::windows::WindowBook;
use layers::notices::{Notice, Noticed};
use layers::two_books::TwoBooks;
use layers::worked::worked_examples;
use samples::{Sample, TIDE, WINDOW, faulty_books};
use std::io;

mod charts;
mod notes;
mod texts;
mod trips;

// Out and back are two functions: one would take a closure and three texts.
fn go_out<N: Book, F: Book>(rt: &HostRuntime, way: Way<'_, N, F>) -> io::Result<()> {
    println!(rt; "out, ready at 0")?;
    match way.out(rt, 0)? {
        Some(exit) => println!(rt; "out at {exit}"),
        None => println!(rt; "no way out"),
    }
}

fn go_back<N: Book, F: Book>(rt: &HostRuntime, way: Way<'_, N, F>, due: Instant) -> io::Result<()> {
    println!(rt; "back, due at {due}")?;
    match way.back(rt, due)? {
        Some(entry) => println!(rt; "in by {entry}"),
        None => println!(rt; "no way back"),
    }
}

fn travel(rt: &HostRuntime) -> io::Result<()> {
    let passages = [20];
    let windows = [WINDOW];
    let tides = [TIDE];
    let timed = WindowBook::new(&passages, &windows);
    let tidal = TideBook::new(&tides);
    let way = Way {
        near: Asked {
            kind: "timed",
            book: &timed,
            gate: 0,
        },
        far: Asked {
            kind: "tide",
            book: &tidal,
            gate: 0,
        },
    };
    go_out(rt, way)?;
    go_back(rt, way, 300)?;
    let checks = [
        Sample {
            name: "the timed gate and its window",
            found: timed.check(),
        },
        Sample {
            name: "the tide gate",
            found: tidal.check(),
        },
    ];
    for check in checks {
        println!(rt; "{check}")?;
    }
    Ok(())
}

fn notice(gate: Gate, begin: Instant, end: Instant) -> Notice {
    Notice { gate, begin, end }
}

// A gate of a layered book, asked by its number there.
fn layered_gate<B>(book: &B, gate: Gate) -> Asked<'_, B> {
    Asked {
        kind: "layered",
        book,
        gate,
    }
}

// Out through gates 0 and 1 of a layered book.
fn pass<B: Book>(rt: &HostRuntime, book: &B) -> io::Result<()> {
    let way = Way {
        near: layered_gate(book, 0),
        far: layered_gate(book, 1),
    };
    go_out(rt, way)
}

// A notice is posted on the tide gate and lifted again; some calls are declined.
fn announce<B: Book>(rt: &HostRuntime, book: &mut Noticed<B>) -> io::Result<()> {
    let tide = notice(1, 85, 200);
    pass(rt, book)?;
    post(rt, book, tide)?;
    pass(rt, book)?;
    post(rt, book, notice(2, 85, 200))?;
    post(rt, book, notice(1, 200, 200))?;
    post(rt, book, tide)?;
    lift(rt, book, notice(1, 85, 201))?;
    lift(rt, book, tide)?;
    lift(rt, book, tide)?;
    pass(rt, book)
}

// Two notices on the tide gate, and the passages that they leave.
fn pair<B: Book>(
    rt: &HostRuntime,
    book: &mut Noticed<B>,
    one: Notice,
    two: Notice,
    due: Instant,
) -> io::Result<()> {
    post(rt, book, one)?;
    post(rt, book, two)?;
    let tide = layered_gate(book, 1);
    let _ = tide.next(rt, 30)?;
    let _ = tide.last(rt, due)?;
    lift(rt, book, one)?;
    lift(rt, book, two)
}

fn layered(rt: &HostRuntime) -> io::Result<()> {
    let passages = [20];
    let windows = [WINDOW];
    let tides = [TIDE];
    let both = TwoBooks::new(WindowBook::new(&passages, &windows), TideBook::new(&tides));
    let mut book = Noticed::new(rt.alloc(), both)?;
    let count = book.count();
    println!(rt; "two books side by side, under notices: {count} gates")?;
    announce(rt, &mut book)?;
    println!(rt; "two notices that overlap")?;
    pair(rt, &mut book, notice(1, 70, 120), notice(1, 100, 205), 230)?;
    println!(rt; "two notices, the second of which leads under the first")?;
    pair(rt, &mut book, notice(1, 130, 160), notice(1, 70, 120), 189)
}

// Each program lists its own parts.
fn main(rt: HostRuntime) -> io::Result<()> {
    travel(&rt)?;
    layered(&rt)?;
    for sample in faulty_books() {
        println!(rt; "{sample}")?;
    }
    show_search(&rt)?;
    let count = worked_examples();
    println!(rt; "{count} worked examples hold")
}
