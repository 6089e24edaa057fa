// The tide book: gates that open for a part of every turn of the tide.
ghost use Rattle.std.specs.Prelude.{◌≡◌, min, length};
ghost use Rattle.books.specs.Faults.{head, listed};
ghost use Rattle.books.specs.Meaning.{Means};
ghost use Rattle.books.specs.TideLaws.{TideFine, tide_ends, tidal_lawful};
ghost use Rattle.books.specs.Tides.{tide_faults, tide_opens, tidal_exits, tidal_faults, TidalPassage};
ghost use Rattle.books.specs.Told.{told};

use crate::book::{Book, Gate, Instant, LAST_INSTANT};
use crate::faults::{Fault, Finding, RecordList};
use crate::gate_rule::GateRule;
use crate::records::{Record, gate_count, gate_list_fault, gate_record};

// The record of a gate in a tide book. From the phase on the tide turns every period; a passage lies in
// the first length minutes of a turn.
#[derive(Clone, Copy)]
pub struct Tide {
    pub phase: Instant,
    pub period: u16,
    pub length: u16,
    pub passage: u16,
}

impl GateRule for Tide {
    ghost minutes = { λ tide. tide.passage };

    ghost opens = { tide_opens };

    ghost Sound = { TideFine };

    ghost ends = { tide_ends };

    fn minutes(&self) -> u16 {
        self.passage
    }

    fn first_entry(&self, t: Instant) -> Option<Instant> {
        let slack = self.length.checked_sub(self.passage)?;
        let base = t.max(self.phase);
        let turned = (base - self.phase) % self.period;
        let start = if turned <= slack {
            base
        } else {
            base.checked_add(self.period - turned)?
        };
        let exit = start.checked_add(self.passage)?;
        (exit <= LAST_INSTANT).then_some(start)
    }

    fn last_entry(&self, t: Instant) -> Option<Instant> {
        let slack = self.length.checked_sub(self.passage)?;
        let exit = t.min(LAST_INSTANT);
        let top = exit.checked_sub(self.passage)?;
        let since = top.checked_sub(self.phase)?;
        let turned = since % self.period;
        Some(top - turned.saturating_sub(slack))
    }
}

impl Record for Tide {
    ghost faults = { tide_faults };

    fn fault(&self, gates: Gate) -> Option<Fault> {
        let bad_turn = self.period == 0 || self.length > self.period || self.phase > LAST_INSTANT;
        let turn = bad_turn.then_some(Fault::TideTurn);
        self.passage.fault(gates).or(turn)
    }
}

// A book of tides, one for each gate.
#[derive(Clone, Copy)]
pub struct TideBook<'a> {
    tides: &'a [Tide],
}

impl<'a> TideBook<'a> {
    // A gate is open at s when s >= phase, ((s - phase) mod period) + passage time <= length and
    // s + passage time <= 20,160; the exit is s + passage time. Entries past the first 256 are no
    // gates; what has a fault doesn't count.
    pub fn new(tides: &'a [Tide]) -> TideBook<'a>
        ensures meaning { Means (⟦<TideBook<'a> as Book>⟧.gates result) (⟦<TideBook<'a> as Book>⟧.exits result) (min (length tides.now) 256) (TidalPassage tides.now) }
        ensures records { result.tides.now ≡ tides.now }
    {
        TideBook { tides }
    }

    // The first faulty record: by place, and then by number.
    pub fn check(&self) -> Option<Finding>
        ensures { told result ≡ head (tidal_faults self.now.tides.now) }
    {
        gate_list_fault(RecordList::Tides, self.tides)
    }
}

impl Book for TideBook<'_> {
    ghost gates = { λ b. listed b.tides.now };

    ghost exits = { λ b. tidal_exits b.tides.now };

    ghost lawful = { λ b. tidal_lawful b.tides.now };

    fn count(&self) -> Gate {
        gate_count(self.tides)
    }

    fn first(&self, gate: Gate, t: Instant) -> Option<(Instant, Instant)> {
        gate_record(self.tides, gate)?.first_passage(t)
    }

    fn last(&self, gate: Gate, t: Instant) -> Option<(Instant, Instant)> {
        gate_record(self.tides, gate)?.last_passage(t)
    }
}
