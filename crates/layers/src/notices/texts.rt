// What a notice is printed as.
ghost use Rattle.std.specs.Prelude.{Some};
ghost use Rattle.layers.specs.Texts.{notice_text};

use crate::notices::Notice;
use std::fmt;

impl fmt::Display for Notice {
    ghost output = { λ notice. Some (notice_text notice) };

    fn fmt<W: fmt::Write>(&self, f: &mut fmt::Formatter<W>) -> fmt::Result {
        write!(f, "gate {} from {} to {}", self.gate, self.begin, self.end)
    }
}
