// What is asked of a sheet.
ghost use Rattle.std.specs.Prelude.{◌≡◌, ◌≤◌, length, take, IfOk, vec_len};
ghost use Rattle.planner.specs.Journeys.{Journey};
ghost use Rattle.examples.specs.Calls.{Replied};
ghost use Rattle.examples.specs.Questions.{told_answer, question_reply, QuestionOutcome, Answered};

use crate::cases::{Ask, Call, Question};
use crate::replies::Done;
use crate::sheets::Sheet;
use books::book::{Book, Instant};
use layers::notices::Noticed;
use planner::charts::Planner;
use planner::legs::{Answer, Leg};
use planner::refusals::Refusal;

fn ask<B: Book>(
    planner: &Planner<B>,
    question: Question,
    cells: &mut [Option<Instant>],
    legs: &mut [Leg],
) -> Result<Answer, Refusal>
    ensures reply { told_answer question.ask result ≡ question_reply (length cells.old) (length legs.old) planner.now.reaches.items (⟦<Noticed<B> as Book>⟧.exits planner.now.noticed) question }
    ensures journey { QuestionOutcome planner.now.reaches.items (⟦<Noticed<B> as Book>⟧.exits planner.now.noticed) question cells.old cells.new legs.old legs.new result }
{
    let Question { ask, trip } = question;
    // which it is was read from the input
    match ask {
        Ask::Foremost => planner.foremost(trip, cells, legs),
        Ask::Fewest => planner.fewest(trip, cells, legs),
        Ask::Latest => planner.latest(trip, cells, legs),
    }
}

impl<B: Book> Sheet<B> {
    fn answer(&mut self, question: Question) -> Result<Done<'_>, Refusal>
        ensures { Answered (vec_len self.old.cells) (vec_len self.old.legs) self.old.planner.reaches.items (⟦<Noticed<B> as Book>⟧.exits self.old.planner.noticed) question result }
    {
        let legs = self.legs.as_mut_slice();
        let answer = ask(&self.planner, question, &mut self.cells, legs)?;
        Ok(Done::Found(answer, &legs[..usize::from(answer.reaches)]))
    }

    pub(crate) fn call(&mut self, call: Call) -> Result<Done<'_>, Refusal>
        ensures { Replied (B.Book.gates self.old.planner.noticed.book) (B.Book.exits self.old.planner.noticed.book) self.old.planner (vec_len self.old.cells) (vec_len self.old.legs) call result }
    {
        // which it is was read from the input
        match call {
            Call::Change(change) => self.change(change),
            Call::Repeat(repeat) => self.repeat(repeat),
            Call::Question(question) => self.answer(question),
        }
    }
}
