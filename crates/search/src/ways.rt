// Reading a way back through the rows of a search.
// The cells are lent as one slice, and a row is told by its number.
ghost use Rattle.std.specs.Prelude.{◌≡◌, position};
ghost use Rattle.search.specs.Reaches.{all_turned};
ghost use Rattle.search.specs.Rows.{RowIn};
ghost use Rattle.search.specs.WayBack.{brings, row_of, step_back, WaysBackAreWalks};

use crate::reaches::{PLACES, Place, Reach};
use crate::reckoning::Reckoning;
use crate::rows::{CELLS, Search};

impl<R: Reckoning> Search<'_, R> {
    // Whether a reach brings to a place, from row k, a label at least as good as z.
    fn brings_to(
        self,
        cells: &[Option<R::Label>],
        k: usize,
        place: Place,
        z: R::Label,
        e: Reach,
    ) -> bool
        requires { RowIn cells.now k }
        ensures { result ≡ brings (R.good self.entry.by.now) (R.goes self.entry.by.now) (row_of cells.now k) place z e }
    {
        if e.from >= PLACES || e.to >= PLACES || e.to != place {
            return false;
        }
        let here = cells[64 * k + usize::from(e.from)];
        !self.betters(self.go_on(e.gate, here), Some(z))
    }

    // The number of the first reach that does.
    fn first_bringer(
        self,
        cells: &[Option<R::Label>],
        k: usize,
        place: Place,
        z: R::Label,
    ) -> Option<usize>
        requires { RowIn cells.now k }
        ensures { result ≡ position (brings (R.good self.entry.by.now) (R.goes self.entry.by.now) (row_of cells.now k) place z) (all_turned self.entry.direction self.entry.reaches.now) }
    {
        self.reaches
            .iter()
            .map(|reach| self.direction.turn(*reach))
            .position(|e| self.brings_to(cells, k, place, z, e))
    }

    // The number of the reach by which the label at a place came into a row of cells that a search filled. From the least
    // row in which a label stands, step after step, it leads back along a walk of just so many reaches with that label.
    pub fn back_step(self, cells: &[Option<R::Label>], row: usize, place: Place) -> Option<usize>
        ensures step { result ≡ step_back (R.good self.entry.by.now) (R.goes self.entry.by.now) (all_turned self.entry.direction self.entry.reaches.now) cells.now row place }
        ensures walks { WaysBackAreWalks (R.good self.entry.by.now) (R.goes self.entry.by.now) (all_turned self.entry.direction self.entry.reaches.now) cells.now }
    {
        if row == 0 || row >= 64 || place >= PLACES || cells.len() < CELLS {
            return None;
        }
        let label = cells[64 * row + usize::from(place)]?;
        self.first_bringer(cells, row - 1, place, label)
    }
}
