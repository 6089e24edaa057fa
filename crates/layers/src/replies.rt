// What the reply to a call is printed as.
ghost use Rattle.layers.specs.Texts.{reply_text};

use std::fmt;

// What was done, or why the call was declined.
#[derive(Clone, Copy)]
pub struct Reply<T, E> {
    pub outcome: Result<T, E>,
}

impl<T: fmt::Display, E: fmt::Display> fmt::Display for Reply<T, E> {
    ghost output = { λ reply. reply_text T.Display.output E.Display.output reply.outcome };

    fn fmt<W: fmt::Write>(&self, f: &mut fmt::Formatter<W>) -> fmt::Result {
        match &self.outcome {
            Ok(done) => write!(f, "{done}"),
            Err(refusal) => write!(f, "declined {refusal}"),
        }
    }
}
