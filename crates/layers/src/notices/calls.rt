// Posting and lifting notices.
ghost use Rattle.std.specs.Prelude.{◌≡◌, [], IfOk};
ghost use Rattle.books.specs.Meaning.{Means};
ghost use Rattle.layers.specs.Notices.{declined, post_refusal, after_post, lift_refusal, after_lift, NoticedPassage};

use crate::notices::refusals::Refusal;
use crate::notices::{MOST_NOTICES, Notice, Noticed};
use books::book::{Book, LAST_INSTANT};
use std::alloc::{AllocError, Global};

impl<B: Book + Drop> Noticed<B> {
    // No notice is up; all room is reserved here, so that no later call wants memory.
    pub fn new(heap: Global, book: B) -> Result<Noticed<B>, AllocError>
        ensures made { IfOk result (λ b. (b.book ≡ book) × (b.notices.items ≡ [])) }
        ensures meaning { IfOk result (λ b. Means (⟦<Noticed<B> as Book>⟧.gates b) (⟦<Noticed<B> as Book>⟧.exits b) (B.Book.gates book) (NoticedPassage [] (B.Book.exits book))) }
    {
        let notices = Vec::with_capacity(heap, MOST_NOTICES)?;
        Ok(Noticed { book, notices })
    }
}

// Each call tells the meaning that it leaves: as a field it would ask `B: Book` of every `Noticed<B>`.
impl<B: Book> Noticed<B> {
    // The tests of a post, in their order.
    fn may_post(&self, notice: Notice) -> Result<(), Refusal>
        ensures { declined result ≡ post_refusal (B.Book.gates self.now.book) self.now.notices.items notice }
    {
        if notice.gate >= self.book.count() {
            return Err(Refusal::NoGate);
        }
        if notice.begin >= notice.end || notice.end > LAST_INSTANT {
            return Err(Refusal::BadNotice);
        }
        if self.notices.contains(&notice) {
            return Err(Refusal::SameNotice);
        }
        if self.notices.len() >= MOST_NOTICES {
            return Err(Refusal::NoticesFull);
        }
        Ok(())
    }

    // Puts a notice up.
    #[tactic(auto, using(crate::specs::NoticeLaws::noticed_only, crate::specs::NoticeLaws::noticed_all))]
    pub fn post(&mut self, notice: Notice) -> Result<(), Refusal>
        ensures reply { declined result ≡ post_refusal (B.Book.gates self.old.book) self.old.notices.items notice }
        ensures notices { self.new.notices.items ≡ after_post (B.Book.gates self.old.book) self.old.notices.items notice }
        ensures book { self.new.book ≡ self.old.book }
        ensures meaning { Means (⟦<Noticed<B> as Book>⟧.gates self.new) (⟦<Noticed<B> as Book>⟧.exits self.new) (B.Book.gates self.old.book) (NoticedPassage self.new.notices.items (B.Book.exits self.old.book)) }
    {
        self.may_post(notice)?;
        self.notices.push_reserved(notice);
        Ok(())
    }

    // Takes the notice with the same three figures down.
    pub fn lift(&mut self, notice: Notice) -> Result<(), Refusal>
        ensures reply { declined result ≡ lift_refusal self.old.notices.items notice }
        ensures notices { self.new.notices.items ≡ after_lift self.old.notices.items notice }
        ensures book { self.new.book ≡ self.old.book }
        ensures meaning { Means (⟦<Noticed<B> as Book>⟧.gates self.new) (⟦<Noticed<B> as Book>⟧.exits self.new) (B.Book.gates self.old.book) (NoticedPassage self.new.notices.items (B.Book.exits self.old.book)) }
    {
        let place = self.notices.iter().position(|other| *other == notice);
        let _ = self.notices.remove(place.ok_or(Refusal::NoNotice)?);
        Ok(())
    }
}
