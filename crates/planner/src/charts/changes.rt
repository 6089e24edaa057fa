// What changes the chart or the notices.
ghost use Rattle.std.specs.Prelude.{◌≡◌, [], IfOk};
ghost use Rattle.layers.specs.Notices.{post_refusal, after_post, lift_refusal, after_lift};
ghost use Rattle.planner.specs.Charts.{lay_reply, after_lay, told_laid, declined};

use crate::charts::{MOST_REACHES, Planner};
use crate::refusals::Refusal;
use books::book::Book;
use layers::notices::refusals::Refusal as LayerRefusal;
use layers::notices::{Notice, Noticed};
use search::reaches::{PLACES, Reach};
use std::alloc::{AllocError, Global};

impl<B: Book + Drop> Planner<B> {
    // No reach is laid and no notice is up; all room is reserved here, so that no later call wants memory.
    pub fn new(heap: Global, book: B) -> Result<Planner<B>, AllocError>
        ensures { IfOk result (λ p. (p.noticed.book ≡ book) × (p.noticed.notices.items ≡ []) × (p.reaches.items ≡ [])) }
    {
        let reaches = Vec::with_capacity(heap, MOST_REACHES)?;
        let noticed = Noticed::new(heap, book)?;
        Ok(Planner { noticed, reaches })
    }
}

impl<B: Book> Planner<B> {
    // Lays a reach, and tells its number.
    pub fn lay(&mut self, reach: Reach) -> Result<u16, Refusal>
        ensures reply { told_laid result ≡ lay_reply (B.Book.gates self.old.noticed.book) self.old.reaches.items reach }
        ensures chart { self.new.reaches.items ≡ after_lay (B.Book.gates self.old.noticed.book) self.old.reaches.items reach }
        ensures noticed { self.new.noticed ≡ self.old.noticed }
    {
        if reach.from >= PLACES || reach.to >= PLACES {
            return Err(Refusal::NoPlace);
        }
        if reach.gate >= self.noticed.count() {
            return Err(Refusal::Layer(LayerRefusal::NoGate));
        }
        let number = self.reaches.len();
        if number >= MOST_REACHES {
            return Err(Refusal::ChartFull);
        }
        self.reaches.push_reserved(reach);
        Ok(number as u16)
    }

    // Puts a notice up.
    pub fn post(&mut self, notice: Notice) -> Result<(), Refusal>
        ensures reply { declined result ≡ post_refusal (B.Book.gates self.old.noticed.book) self.old.noticed.notices.items notice }
        ensures notices { self.new.noticed.notices.items ≡ after_post (B.Book.gates self.old.noticed.book) self.old.noticed.notices.items notice }
        ensures book { self.new.noticed.book ≡ self.old.noticed.book }
        ensures chart { self.new.reaches.items ≡ self.old.reaches.items }
    {
        Ok(self.noticed.post(notice)?)
    }

    // Takes the notice with the same three figures down.
    pub fn lift(&mut self, notice: Notice) -> Result<(), Refusal>
        ensures reply { declined result ≡ lift_refusal self.old.noticed.notices.items notice }
        ensures notices { self.new.noticed.notices.items ≡ after_lift self.old.noticed.notices.items notice }
        ensures book { self.new.noticed.book ≡ self.old.noticed.book }
        ensures chart { self.new.reaches.items ≡ self.old.reaches.items }
    {
        Ok(self.noticed.lift(notice)?)
    }
}
