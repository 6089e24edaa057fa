// The window book: gates that open in windows of time.
ghost use Rattle.std.specs.Prelude.{◌≡◌, ◌<◌, min, length};
ghost use Rattle.std.specs.Option.{ForSome};
ghost use Rattle.books.specs.Faults.{head, listed};
ghost use Rattle.books.specs.Meaning.{Means};
ghost use Rattle.books.specs.Records.{exit_by};
ghost use Rattle.books.specs.Told.{told};
ghost use Rattle.books.specs.WindowLaws.{timed_ends, timed_lawful};
ghost use Rattle.books.specs.Windows.{takes, window_faults, window_first, window_last, held, timed_exits, timed_faults, TimedPassage};

use crate::book::{Book, Gate, Instant, LAST_INSTANT};
use crate::faults::{Fault, Finding, RecordList};
use crate::gate_rule::GateRule;
use crate::records::{Record, first_fault, gate_count, gate_list_fault, gate_record};

// A span of time in which a gate takes passages; each lies in one window from entry to exit.
#[derive(Clone, Copy)]
pub struct Window {
    pub gate: Gate,
    pub begin: Instant,
    pub end: Instant,
}

impl Record for Window {
    ghost faults = { window_faults };

    fn fault(&self, gates: Gate) -> Option<Fault> {
        if self.gate >= gates {
            Some(Fault::WindowGate)
        } else if self.begin > self.end || self.end > LAST_INSTANT {
            Some(Fault::WindowSpan)
        } else {
            None
        }
    }
}

// A book of passage times, one for each gate, and of windows.
#[derive(Clone, Copy)]
pub struct WindowBook<'a> {
    passages: &'a [u16],
    windows: &'a [Window],
}

impl<'a> WindowBook<'a> {
    // A gate is open at s when one window of it has begin <= s and s + passage time <= end; the exit
    // is s + passage time. Entries past the first 256 are no gates; what has a fault doesn't count.
    pub fn new(passages: &'a [u16], windows: &'a [Window]) -> WindowBook<'a>
        ensures meaning { Means (⟦<WindowBook<'a> as Book>⟧.gates result) (⟦<WindowBook<'a> as Book>⟧.exits result) (min (length passages.now) 256) (TimedPassage passages.now windows.now) }
        ensures records { (result.passages.now ≡ passages.now) × (result.windows.now ≡ windows.now) }
    {
        WindowBook { passages, windows }
    }

    // The first faulty record: the gates before the windows, by place, and then by number.
    pub fn check(&self) -> Option<Finding>
        ensures { told result ≡ head (timed_faults self.now.passages.now self.now.windows.now) }
    {
        let gates = self.count();
        gate_list_fault(RecordList::Timed, self.passages).or_else(|| first_fault(
            RecordList::Windows,
            self.windows,
            gates,
        ))
    }

    // The gate with that number.
    fn gate(&self, number: Gate) -> Option<TimedGate<'a>>
        ensures rule { exit_by ⟦<TimedGate<'a> as GateRule>⟧.minutes ⟦<TimedGate<'a> as GateRule>⟧.opens result ≡ timed_exits self.now.passages.now self.now.windows.now number }
        ensures sound { ForSome result ⟦<TimedGate<'a> as GateRule>⟧.Sound }
    {
        let passage = gate_record(self.passages, number)?;
        Some(TimedGate {
            book: *self,
            number,
            passage,
        })
    }
}

impl Book for WindowBook<'_> {
    ghost gates = { λ b. listed b.passages.now };

    ghost exits = { λ b. timed_exits b.passages.now b.windows.now };

    ghost lawful = { λ b. timed_lawful b.passages.now b.windows.now };

    fn count(&self) -> Gate {
        gate_count(self.passages)
    }

    fn first(&self, gate: Gate, t: Instant) -> Option<(Instant, Instant)> {
        self.gate(gate)?.first_passage(t)
    }

    fn last(&self, gate: Gate, t: Instant) -> Option<(Instant, Instant)> {
        self.gate(gate)?.last_passage(t)
    }
}

// A gate of a window book, with its passage time.
#[derive(Clone, Copy)]
struct TimedGate<'a> {
    book: WindowBook<'a>,
    number: Gate,
    passage: u16,
}

impl TimedGate<'_> {
    // Whether the window is one of the gate's and ends in the fortnight.
    fn takes(&self, window: &Window) -> bool
        ensures { result ≡ takes self.now.number window.now }
    {
        window.gate == self.number && window.end <= LAST_INSTANT
    }

    // A book has two questions, so a window is looked at from each of its ends.
    // The least entry from t on of a passage through the gate that lies in the window.
    fn first_in(&self, window: &Window, t: Instant) -> Option<Instant>
        ensures { result ≡ window_first self.now.number self.now.passage t window.now }
    {
        let entry = window.begin.max(t);
        let exit = entry.checked_add(self.passage)?;
        (self.takes(window) && exit <= window.end).then_some(entry)
    }

    // The greatest such entry from which the boat comes out by t.
    fn last_in(&self, window: &Window, t: Instant) -> Option<Instant>
        ensures { result ≡ window_last self.now.number self.now.passage t window.now }
    {
        let exit = window.end.min(t);
        let entry = exit.checked_sub(self.passage)?;
        (self.takes(window) && window.begin <= entry).then_some(entry)
    }
}

impl GateRule for TimedGate<'_> {
    ghost minutes = { λ gate. gate.passage };

    ghost opens = { λ gate. held (listed gate.book.passages.now) gate.book.windows.now gate.number gate.passage };

    ghost Sound = { λ gate. gate.number < listed gate.book.passages.now };

    ghost ends = { λ gate s. timed_ends gate.book.passages.now gate.book.windows.now gate.number gate.passage s };

    fn minutes(&self) -> u16 {
        self.passage
    }

    fn first_entry(&self, t: Instant) -> Option<Instant> {
        self.book
            .windows
            .iter()
            .filter_map(|window| self.first_in(window, t))
            .min()
    }

    fn last_entry(&self, t: Instant) -> Option<Instant> {
        self.book
            .windows
            .iter()
            .filter_map(|window| self.last_in(window, t))
            .max()
    }
}
