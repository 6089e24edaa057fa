ghost use Rattle.std.specs.Prelude.{◌≡◌, ℕ, List, take};
ghost use Rattle.books.specs.Told.{fault_number, list_word, numbered, told};
ghost use Rattle.books.specs.Faults.{listed, head, faults_from, gate_list_faults, in_list, passage_faults};
ghost use Rattle.books.specs.Records.{sound_gate};

use crate::book::{Gate, LAST_INSTANT};
use crate::faults::{Fault, Finding, RecordList};

// Only so many entries of a list of gate records are gates.
pub const MOST_LISTED: usize = 256;

// A record of a book. `faults` are the numbers of its faults in a book of so many gates, the lowest first.
pub trait Record {
    ghost faults: { ℕ → Self → List ℕ };

    // The fault with the lowest number.
    fn fault(&self, gates: Gate) -> Option<Fault>
        ensures { numbered result ≡ head (faults gates self.now) };
}

// A passage time, in minutes.
impl Record for u16 {
    ghost faults = { passage_faults };

    fn fault(&self, _gates: Gate) -> Option<Fault> {
        (*self == 0 || *self > LAST_INSTANT).then_some(Fault::Passage)
    }
}

// The entries of a list of gate records that are gates.
fn gates<R>(entries: &[R]) -> &[R]
    ensures { result.now ≡ take (listed entries.now) entries.now }
{
    &entries[..entries.len().min(MOST_LISTED)]
}

// How many gates a list of gate records gives.
pub fn gate_count<R: Record>(entries: &[R]) -> Gate
    ensures { result ≡ listed entries.now }
{
    gates(entries).len() as Gate
}

// The record of a gate, unless the list has no such gate or the record has a fault.
pub fn gate_record<R: Record + Copy>(entries: &[R], gate: Gate) -> Option<R>
    ensures { result ≡ sound_gate R.Record.faults entries.now gate }
{
    let count = gate_count(entries);
    gates(entries)
        .get(usize::from(gate))
        .copied()
        .filter(|record| record.fault(count).is_none())
}

// The first faulty record.
pub fn first_fault<R: Record>(list: RecordList, records: &[R], gates: Gate) -> Option<Finding>
    ensures { told result ≡ head (in_list (list_word list) (faults_from (R.Record.faults gates) 0 records.now)) }
{
    records.iter().enumerate().find_map(|(place, record)| {
        record
            .fault(gates)
            .map(|fault| Finding { list, place, fault })
    })
}

// The first fault of a list of gate records.
pub fn gate_list_fault<R: Record>(list: RecordList, entries: &[R]) -> Option<Finding>
    ensures { told result ≡ head (gate_list_faults (list_word list) (R.Record.faults (listed entries.now)) entries.now) }
{
    let too_many = (entries.len() > MOST_LISTED).then_some(Finding {
        list,
        place: MOST_LISTED,
        fault: Fault::TooManyGates,
    });
    first_fault(list, gates(entries), gate_count(entries)).or(too_many)
}
