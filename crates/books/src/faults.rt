// What can be wrong with a book, and what a check tells.
ghost use Rattle.std.specs.Prelude.{◌≡◌, Some};
ghost use Rattle.books.specs.Told.{fault_number, list_word};
ghost use Rattle.books.specs.Texts.{fault_text, finding_text, check_text};

use std::fmt;

// What can be wrong with a record of a book.
#[derive(Clone, Copy, PartialEq, Eq, Debug)]
pub enum Fault {
    // the book lists more than 256 gates
    TooManyGates,
    // a passage time is 0 or above 20,160
    Passage,
    // a window's gate is not among the book's gates
    WindowGate,
    // a window's begin is after its end, or its end is above 20,160
    WindowSpan,
    // a tide's period is 0, its length exceeds its period, or its phase is above 20,160
    TideTurn,
}

impl From<Fault> for u16 {
    ghost from_gives = { λ fault number. number ≡ fault_number fault };

    fn from(fault: Fault) -> u16 {
        match fault {
            Fault::TooManyGates => 12,
            Fault::Passage => 13,
            Fault::WindowGate => 14,
            Fault::WindowSpan => 15,
            Fault::TideTurn => 16,
        }
    }
}

// Its number.
impl fmt::Display for Fault {
    ghost output = { λ fault. Some (fault_text fault) };

    fn fmt<W: fmt::Write>(&self, f: &mut fmt::Formatter<W>) -> fmt::Result {
        write!(f, "{}", u16::from(*self))
    }
}

// A list that a book reads its records from.
#[derive(Clone, Copy, PartialEq, Eq, Debug)]
pub enum RecordList {
    // the gates of a window book
    Timed,
    // the windows of a window book
    Windows,
    // the gates of a tide book
    Tides,
}

impl RecordList {
    // It lends the word, and can't fail; `Display` prints it.
    pub fn word(self) -> &'static str
        ensures { result.now ≡ list_word self }
    {
        match self {
            RecordList::Timed => "timed",
            RecordList::Windows => "window",
            RecordList::Tides => "tide",
        }
    }
}

impl fmt::Display for RecordList {
    ghost output = { λ list. Some (list_word list) };

    fn fmt<W: fmt::Write>(&self, f: &mut fmt::Formatter<W>) -> fmt::Result {
        f.write_str(self.word())
    }
}

// A faulty record: its list, its place there from 0, and what is wrong with it.
#[derive(Clone, Copy, PartialEq, Eq, Debug)]
pub struct Finding {
    pub list: RecordList,
    pub place: usize,
    pub fault: Fault,
}

impl fmt::Display for Finding {
    ghost output = { λ finding. Some (finding_text finding) };

    fn fmt<W: fmt::Write>(&self, f: &mut fmt::Formatter<W>) -> fmt::Result {
        write!(f, "{} {} {}", self.list, self.place, self.fault)
    }
}

// The answer of a check, as it is printed.
#[derive(Clone, Copy, PartialEq, Eq, Debug)]
pub struct Checked {
    pub found: Option<Finding>,
}

impl fmt::Display for Checked {
    ghost output = { λ checked. Some (check_text checked.found) };

    fn fmt<W: fmt::Write>(&self, f: &mut fmt::Formatter<W>) -> fmt::Result {
        match self.found {
            None => f.write_str("(book good)"),
            Some(finding) => write!(f, "(book {finding})"),
        }
    }
}
