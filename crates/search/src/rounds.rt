// One round over the reaches, from one row of cells into the next.
// The cells are lent as one slice, and a row is told by its number.
ghost use Rattle.std.specs.Prelude.{◌≡◌, ℕ, ◌+◌, ◌-◌, ◌*◌, ◌<◌, ◌≤◌, true, length, slice_index_or, None};
ghost use Rattle.search.specs.Filled.{RowFilled};
ghost use Rattle.search.specs.Reaches.{turned, all_turned};
ghost use Rattle.search.specs.Rows.{onward, bettering, tells, relaxed, fresh, RowIn};

use crate::reaches::{Gate, PLACES, Place, Reach};
use crate::reckoning::Reckoning;
use crate::rows::Search;

// Gives row k what the row before it has: the row is copied whole, where `copy_within` would go cell by cell.
fn carry<L: Copy>(cells: &mut [Option<L>], k: usize)
    requires later { 0 < k }
    requires held { RowIn cells.old k }
    ensures row { (v : ℕ) → v < 64 → slice_index_or cells.new (64 * k + v) None ≡ slice_index_or cells.old (64 * (k - 1) + v) None }
    ensures below { (j : ℕ) → j < 64 * k → slice_index_or cells.new j None ≡ slice_index_or cells.old j None }
    ensures above { (j : ℕ) → 64 * k + 64 ≤ j → slice_index_or cells.new j None ≡ slice_index_or cells.old j None }
    ensures len { length cells.new ≡ length cells.old }
{
    let (before, rest) = cells.split_at_mut(64 * k);
    let (_, row) = before.split_at(64 * (k - 1));
    let (next, _) = rest.split_at_mut(64);
    next.copy_from_slice(row);
}

impl<R: Reckoning> Search<'_, R> {
    // How a label, if there is one, goes on.
    pub(crate) fn go_on(self, gate: Gate, here: Option<R::Label>) -> Option<R::Label>
        ensures { result ≡ onward (R.goes self.entry.by.now) gate here }
    {
        self.by.go(gate, here?)
    }

    // Whether the new label betters the old.
    pub(crate) fn betters(self, old: Option<R::Label>, new: Option<R::Label>) -> bool
        ensures { result ≡ bettering (R.good self.entry.by.now) old new }
    {
        new.is_some_and(|y| old.is_none_or(|x| !self.by.at_least(x, y)))
    }

    // Takes one reach on, from row k - 1 into row k, and says whether it betters its end.
    fn relax(self, cells: &mut [Option<R::Label>], k: usize, e: Reach) -> bool
        requires later { 0 < k }
        requires held { RowIn cells.old k }
        ensures cells { cells.new ≡ relaxed (R.good self.entry.by.now) (R.goes self.entry.by.now) (64 * (k - 1)) (64 * k) cells.old e }
        ensures told { result ≡ tells (R.good self.entry.by.now) (R.goes self.entry.by.now) (64 * (k - 1)) (64 * k) cells.old e }
    {
        if e.from >= PLACES || e.to >= PLACES {
            return false;
        }
        let to = 64 * k + usize::from(e.to);
        let old = cells[to];
        let new = self.go_on(e.gate, cells[64 * (k - 1) + usize::from(e.from)]);
        let told = self.betters(old, new);
        if told {
            cells[to] = new;
        }
        told
    }

    // Whether the label of a place was bettered in the round before round k; each label of row 0 counts as such.
    fn is_new(self, cells: &[Option<R::Label>], k: usize, place: Place) -> bool
        requires later { 0 < k }
        requires held { RowIn cells.now k }
        ensures { result ≡ fresh (R.good self.entry.by.now) cells.now k place }
    {
        if place >= PLACES {
            return false;
        }
        if k < 2 {
            return true;
        }
        let at = usize::from(place);
        let old = cells[64 * (k - 2) + at];
        let new = cells[64 * (k - 1) + at];
        self.betters(old, new)
    }

    // Fills row k from the row before it, whatever that holds, and says whether a place is bettered. Only the reaches whose
    // start has a new label are taken on: the others were, with the same label, in the round before.
    pub(crate) fn round(self, cells: &mut [Option<R::Label>], k: usize) -> bool
        requires later { 0 < k }
        requires held { RowIn cells.old k }
        ensures { RowFilled true (R.good self.entry.by.now) (R.goes self.entry.by.now) (all_turned self.entry.direction self.entry.reaches.now) k cells.old cells.new result }
    {
        carry(cells, k);
        let mut told = false;
        for reach in self.reaches {
            let e = self.direction.turn(*reach);
            if self.is_new(cells, k, e.from) {
                told |= self.relax(cells, k, e);
            }
        }
        told
    }
}
