// The search.
ghost use Rattle.std.specs.Prelude.{◌≡◌};
ghost use Rattle.search.specs.Filled.{last_row, Filled, Searched, FirstRow, NextRow};
ghost use Rattle.search.specs.Reaches.{all_turned};

use crate::reaches::{Direction, PLACES, Place, Reach};
use crate::reckoning::Reckoning;

// 64 rows of 64 places.
pub const CELLS: usize = 4096;

// What a search goes by: a reckoning, and the reaches, gone over in one direction.
#[derive_where(Clone, Copy)]
pub struct Search<'a, R> {
    pub by: &'a R,
    pub direction: Direction,
    pub reaches: &'a [Reach],
}

// Fills row 0 alone: a label at one place, and none elsewhere. It says whether there are enough cells.
pub fn first_row<L: Copy>(cells: &mut [Option<L>], start: Place, label: L) -> bool
    ensures { FirstRow start label cells.old cells.new result }
{
    // a plain test with nothing to hand over, so a `Result` would say no more
    if cells.len() < CELLS {
        return false;
    }
    cells[..64].fill(None);
    if start < PLACES {
        cells[usize::from(start)] = Some(label);
    }
    true
}

impl<R: Reckoning> Search<'_, R> {
    // The best labels from a start place with a label, by rising number of reaches: row k of the cells has them for at
    // most k reaches. It says which row is the last, or nothing where there are too few cells.
    pub fn run(self, start: Place, label: R::Label, cells: &mut [Option<R::Label>]) -> Option<usize>
        ensures last { result ≡ last_row (R.good self.entry.by.now) (R.goes self.entry.by.now) (all_turned self.entry.direction self.entry.reaches.now) start label cells.old }
        ensures filled { Filled (R.good self.entry.by.now) (R.goes self.entry.by.now) (all_turned self.entry.direction self.entry.reaches.now) start label cells.old cells.new result }
        ensures walks { Searched (R.good self.entry.by.now) (R.goes self.entry.by.now) (all_turned self.entry.direction self.entry.reaches.now) start label cells.new result }
    {
        if !first_row(cells, start, label) {
            return None;
        }
        // the rounds keep their label, and a labelled `for` has no value, so the number of its round is kept beside it
        let mut last = 0;
        'rounds: for k in 1..64 {
            last = k;
            if !self.next_row(cells, k) {
                break 'rounds;
            }
        }
        Some(last)
    }

    // Fills one row more, by a round over the reaches from the row before it, and says whether the round betters a place. Where
    // the cells don't hold the row, it does nothing, and says no: either way there is nothing to go on with, so a truth value
    // tells enough.
    pub fn next_row(self, cells: &mut [Option<R::Label>], row: usize) -> bool
        ensures { NextRow (R.good self.entry.by.now) (R.goes self.entry.by.now) (all_turned self.entry.direction self.entry.reaches.now) row cells.old cells.new result }
    {
        let held = 0 < row && row < 64 && cells.len() >= CELLS;
        held && self.round(cells, row)
    }
}
