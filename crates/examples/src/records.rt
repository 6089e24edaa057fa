// The records of a sheet's book.
ghost use Rattle.std.specs.Prelude.{◌≡◌, Ok, IfOk, OnOk};
ghost use Rattle.examples.specs.Records.{lists, nothing, added, gathered};

use crate::cases::{Case, Line, Record};
use books::tides::Tide;
use books::windows::Window;
use std::alloc::{AllocError, Global};

#[derive(Drop)]
pub(crate) struct Records {
    pub(crate) passages: Vec<u16>,
    pub(crate) windows: Vec<Window>,
    pub(crate) tides: Vec<Tide>,
}

impl Records {
    fn add(&mut self, record: Record) -> Result<(), AllocError>
        ensures { OnOk result (lists self.new ≡ added (Ok (Line.Record «record»)) (lists self.old)) }
    {
        match record {
            Record::Timed(passage) => self.passages.push(passage)?,
            Record::Window(window) => self.windows.push(window)?,
            Record::Tide(tide) => self.tides.push(tide)?,
        }
        Ok(())
    }

    // All records of some cases, in their order.
    pub(crate) fn gather(heap: Global, cases: &[Case<'_>]) -> Result<Records, AllocError>
        ensures { IfOk result (λ records. lists records ≡ gathered nothing cases.now) }
    {
        let mut records = Records {
            passages: Vec::new(heap),
            windows: Vec::new(heap),
            tides: Vec::new(heap),
        };
        for case in cases {
            if let Ok(Line::Record(record)) = case.line {
                records.add(record)?;
            }
        }
        Ok(records)
    }
}
