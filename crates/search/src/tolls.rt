// A plain reckoning: the least sum of tolls.
ghost use Rattle.search.specs.Tolls.{no_dearer, tolled, toll_antisymmetric, toll_laws};

use crate::reaches::Gate;
use crate::reckoning::Reckoning;

// Each gate has a fixed toll; a label is the sum of those paid.
#[derive(Clone, Copy)]
pub struct Tolls<'a> {
    pub tolls: &'a [u16],
}

impl Reckoning for Tolls<'_> {
    type Label = u16;

    ghost good = { λ r. no_dearer };

    ghost goes = { λ r. tolled r.tolls.now };

    ghost laws = { λ r. toll_laws r.tolls.now };

    ghost antisymmetric = { λ r. toll_antisymmetric };

    fn at_least(&self, x: u16, y: u16) -> bool {
        x <= y
    }

    fn go(&self, gate: Gate, x: u16) -> Option<u16> {
        let toll = *self.tolls.get(usize::from(gate))?;
        x.checked_add(toll)
    }
}
