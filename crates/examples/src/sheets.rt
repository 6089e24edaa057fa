// A sheet: a planner over its book, and the lists that are lent to it.
ghost use Rattle.std.specs.Prelude.{◌≡◌, [], IfOk, vec_len, OnOk};

use crate::cases::Room;
use books::book::{Book, Instant};
use planner::charts::Planner;
use planner::legs::{Leg, NO_LEG};
use std::alloc::{AllocError, Global};

mod calls;
mod changes;

#[derive(Drop)]
pub(crate) struct Sheet<B> {
    planner: Planner<B>,
    cells: Vec<Option<Instant>>,
    legs: Vec<Leg>,
}

impl<B: Book + Drop> Sheet<B> {
    // An empty chart, and no notice.
    pub(crate) fn new(heap: Global, book: B, room: Room) -> Result<Sheet<B>, AllocError>
        ensures planner { IfOk result (λ s. (s.planner.noticed.book ≡ book) × (s.planner.noticed.notices.items ≡ []) × (s.planner.reaches.items ≡ [])) }
        ensures room { IfOk result (λ s. (vec_len s.cells ≡ room.cells) × (vec_len s.legs ≡ room.legs)) }
    {
        Ok(Sheet {
            planner: Planner::new(heap, book)?,
            cells: vec![in heap; None; room.cells]?,
            legs: vec![in heap; NO_LEG; room.legs]?,
        })
    }
}

impl<B> Sheet<B> {
    // From here on the lent lists are so long.
    pub(crate) fn set_room(&mut self, heap: Global, room: Room) -> Result<(), AllocError>
        ensures planner { self.new.planner ≡ self.old.planner }
        ensures room { OnOk result ((vec_len self.new.cells ≡ room.cells) × (vec_len self.new.legs ≡ room.legs)) }
    {
        self.cells = vec![in heap; None; room.cells]?;
        self.legs = vec![in heap; NO_LEG; room.legs]?;
        Ok(())
    }
}
