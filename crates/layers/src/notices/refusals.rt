// Why a notice is not posted or lifted.
ghost use Rattle.std.specs.Prelude.{◌≡◌, Some};
ghost use Rattle.layers.specs.Notices.{refusal_number};
ghost use Rattle.layers.specs.Texts.{refusal_text};

use std::fmt;

#[derive(Clone, Copy, PartialEq, Eq, Debug)]
pub enum Refusal {
    // there is no gate of that number
    NoGate,
    // the notice's begin is not before its end, or its end is above 20,160
    BadNotice,
    // the same notice is up
    SameNotice,
    // 32 notices are up
    NoticesFull,
    // no such notice is up
    NoNotice,
}

impl From<Refusal> for u16 {
    ghost from_gives = { λ refusal number. number ≡ refusal_number refusal };

    fn from(refusal: Refusal) -> u16 {
        match refusal {
            Refusal::NoGate => 7,
            Refusal::BadNotice => 8,
            Refusal::SameNotice => 9,
            Refusal::NoticesFull => 10,
            Refusal::NoNotice => 11,
        }
    }
}

// Its number.
impl fmt::Display for Refusal {
    ghost output = { λ refusal. Some (refusal_text refusal) };

    fn fmt<W: fmt::Write>(&self, f: &mut fmt::Formatter<W>) -> fmt::Result {
        write!(f, "{}", u16::from(*self))
    }
}
