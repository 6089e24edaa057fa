// What each line of the input asks for.
use crate::reading::Unreadable;
use crate::series::{Change, Series};
use books::tides::Tide;
use books::windows::Window;
use planner::trips::Trip;
use std::alloc::{AllocError, Global};
use std::num::NonZeroU16;

// A record of the sheet's book.
#[derive(Clone, Copy)]
pub(crate) enum Record {
    Timed(u16),
    Window(Window),
    Tide(Tide),
}

#[derive(Clone, Copy)]
pub(crate) enum Ask {
    Foremost,
    Fewest,
    Latest,
}

// A question; the trip's instant is the ready instant, or for `latest` the due instant.
#[derive(Clone, Copy)]
pub(crate) struct Question {
    pub(crate) ask: Ask,
    pub(crate) trip: Trip,
}

// How long the lent lists are.
#[derive(Clone, Copy)]
pub(crate) struct Room {
    pub(crate) cells: usize,
    pub(crate) legs: usize,
}

// So many changes of a series.
#[derive(Clone, Copy)]
pub(crate) struct Repeat {
    pub(crate) count: NonZeroU16,
    pub(crate) series: Series,
}

#[derive(Clone, Copy)]
pub(crate) enum Call {
    Change(Change),
    Repeat(Repeat),
    Question(Question),
}

#[derive(Clone, Copy)]
pub(crate) enum Line {
    // a blank line or a comment
    Aside,
    // a new sheet starts
    Sheet,
    Record(Record),
    Room(Room),
    Call(Call),
}

// A line of the input, and what it asks for.
#[derive(Clone, Copy)]
pub(crate) struct Case<'a> {
    pub(crate) text: &'a str,
    pub(crate) line: Result<Line, Unreadable>,
}

// A record after its sheet's first call can't be read. The list needs an allocator, which `FromStr` has no place for.
pub(crate) fn read_cases<'a>(heap: Global, input: &'a str) -> Result<Vec<Case<'a>>, AllocError> {
    let mut cases = Vec::new(heap);
    let mut called = false;
    for text in input.lines() {
        let line = match text.parse() {
            Ok(Line::Record(_)) if called => Err(Unreadable),
            line => line,
        };
        match line {
            Ok(Line::Sheet) => called = false,
            Ok(Line::Call(_)) => called = true,
            _ => {}
        }
        cases.push(Case { text, line })?;
    }
    Ok(cases)
}
