// Records that the programs show, and books that have faults.
#![tactic(auto)]

ghost use Rattle.std.specs.Prelude.{◌≡◌, map, Some};
ghost use Rattle.samples.specs.Faulty.{sample_told, faulty};
ghost use Rattle.samples.specs.Texts.{sample_text};

use books::faults::{Checked, Finding};
use books::tides::{Tide, TideBook};
use books::windows::{Window, WindowBook};
use std::fmt;

pub const WINDOW: Window = Window {
    gate: 0,
    begin: 10,
    end: 95,
};

pub const TIDE: Tide = Tide {
    phase: 60,
    period: 745,
    length: 180,
    passage: 30,
};

// A book, in words, and what its check finds.
#[derive(Clone, Copy)]
pub struct Sample {
    pub name: &'static str,
    pub found: Option<Finding>,
}

impl fmt::Display for Sample {
    ghost output = { λ sample. Some (sample_text sample) };

    fn fmt<W: fmt::Write>(&self, f: &mut fmt::Formatter<W>) -> fmt::Result {
        let checked = Checked { found: self.found };
        write!(f, "check of {}: {checked}", self.name)
    }
}

// One book for each kind of fault.
pub fn faulty_books() -> [Sample; 5]
    ensures { map sample_told result ≡ faulty }
{
    [
        Sample {
            name: "257 timed gates",
            found: WindowBook::new(&[20; 257], &[]).check(),
        },
        Sample {
            name: "passage times 20 and 0",
            found: WindowBook::new(&[20, 0], &[]).check(),
        },
        Sample {
            name: "one timed gate and windows of gates 0 and 1",
            found: WindowBook::new(&[20], &[WINDOW, Window { gate: 1, ..WINDOW }]).check(),
        },
        Sample {
            name: "a window from 96 to 95",
            found: WindowBook::new(
                &[20],
                &[Window {
                    begin: 96,
                    ..WINDOW
                }],
            )
            .check(),
        },
        Sample {
            name: "a tide of period 745 and length 746",
            found: TideBook::new(&[Tide {
                length: 746,
                ..TIDE
            }])
            .check(),
        },
    ]
}
