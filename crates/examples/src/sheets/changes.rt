// What changes the chart or the notices of a sheet.
ghost use Rattle.std.specs.Prelude.{◌≡◌};
ghost use Rattle.std.specs.Int.NonZero.{non_zero_u16_get};
ghost use Rattle.examples.specs.Changes.{state, unasked, changed, repeated};
ghost use Rattle.examples.specs.Texts.{reply_text};

use crate::cases::Repeat;
use crate::replies::Done;
use crate::series::Change;
use crate::sheets::Sheet;
use books::book::Book;
use planner::refusals::Refusal;

impl<B: Book> Sheet<B> {
    pub(crate) fn change(&mut self, change: Change) -> Result<Done<'static>, Refusal>
        ensures state { state self.new.planner (reply_text result) ≡ changed (B.Book.gates self.old.planner.noticed.book) change (unasked self.old.planner) }
        ensures book { self.new.planner.noticed.book ≡ self.old.planner.noticed.book }
    {
        // which it is was read from the input
        match change {
            Change::Lay(reach) => Ok(Done::Laid(self.planner.lay(reach)?)),
            Change::Post(notice) => {
                self.planner.post(notice)?;
                Ok(Done::Posted)
            }
            Change::Lift(notice) => {
                self.planner.lift(notice)?;
                Ok(Done::Lifted)
            }
        }
    }

    // The last reply.
    // The series is told each change's number: one that counted by itself would owe that its places fit 16 bits.
    #[tactic(auto, using(crate::proofs::Repeats::repeated_more))]
    pub(crate) fn repeat(&mut self, repeat: Repeat) -> Result<Done<'static>, Refusal>
        ensures state { state self.new.planner (reply_text result) ≡ repeated (B.Book.gates self.old.planner.noticed.book) (non_zero_u16_get repeat.count) 0 repeat.series (unasked self.old.planner) }
        ensures book { self.new.planner.noticed.book ≡ self.old.planner.noticed.book }
    {
        let Repeat { count, mut series } = repeat;
        let mut reply = self.change(series.change(0));
        for i in 1..count.get() {
            reply = self.change(series.change(i));
        }
        reply
    }
}
