// The notice layer: notices shut gates for a time, on top of any book.
ghost use Rattle.std.specs.Prelude.{◌≤◌, vec_len, vec_capacity};

use books::book::{Gate, Instant};

pub mod calls;
pub mod open;
pub mod refusals;
mod texts;

// So many notices can be up at a time.
pub const MOST_NOTICES: usize = 32;

// No passage of the gate may lie, even in part, between begin and end.
#[derive(Clone, Copy, PartialEq, Eq, Debug)]
pub struct Notice {
    pub gate: Gate,
    pub begin: Instant,
    pub end: Instant,
}

// Up to 32 notices over a book; room for all of them is reserved.
#[derive(Drop)]
pub struct Noticed<B> {
    book: B,
    notices: Vec<Notice>,
    ghost room: { (32 ≤ vec_capacity notices) × (vec_len notices ≤ 32) },
}
