// Carrying out the cases, sheet by sheet.
use crate::cases::{Case, Line, Room};
use crate::reading::Unreadable;
use crate::records::Records;
use crate::sheets::Sheet;
use books::book::Book;
use books::tides::TideBook;
use books::windows::WindowBook;
use layers::replies::Reply;
use layers::two_books::TwoBooks;
use planner::legs::MOST_LEGS;
use search::rows::CELLS;
use std::io;

fn carry_out<B: Book>(rt: &HostRuntime, sheet: &mut Sheet<B>, case: Case<'_>) -> io::Result<()> {
    let Case { text, line } = case;
    match line {
        Err(Unreadable) => println!(rt; "unreadable: {text}"),
        Ok(Line::Aside | Line::Record(_)) => Ok(()),
        Ok(Line::Sheet) => println!(rt; "{text}"),
        Ok(Line::Room(room)) => {
            sheet.set_room(rt.alloc(), room)?;
            println!(rt; "{text}")
        }
        Ok(Line::Call(call)) => {
            let reply = Reply {
                outcome: sheet.call(call),
            };
            println!(rt; "{text}: {reply}")
        }
    }
}

fn run_sheet(rt: &HostRuntime, cases: &[Case<'_>]) -> io::Result<()> {
    let records = Records::gather(rt.alloc(), cases)?;
    let timed = WindowBook::new(&records.passages, &records.windows);
    let tidal = TideBook::new(&records.tides);
    let room = Room {
        cells: CELLS,
        legs: MOST_LEGS,
    };
    let mut sheet = Sheet::new(rt.alloc(), TwoBooks::new(timed, tidal), room)?;
    for case in cases {
        carry_out(rt, &mut sheet, *case)?;
    }
    Ok(())
}

// What stands before the first line that starts a sheet is a sheet of its own.
pub(crate) fn run(rt: &HostRuntime, cases: &[Case<'_>]) -> io::Result<()> {
    for sheet in cases.chunk_by(|_, case| !matches!(case.line, Ok(Line::Sheet))) {
        run_sheet(rt, sheet)?;
    }
    Ok(())
}
