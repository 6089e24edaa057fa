// Changes that are made one after another.
ghost use Rattle.std.specs.Prelude.{◌≡◌, ◌%◌, ◌<◌};
ghost use Rattle.std.specs.Int.NonZero.{non_zero_u16_get};
ghost use Rattle.examples.specs.Series.{moved, scattered, moved_on, change_at, series_after};

use books::book::Gate;
use layers::notices::Notice;
use search::reaches::Reach;
use std::num::NonZeroU16;

// A call that changes the chart or the notices.
#[derive(Clone, Copy)]
pub(crate) enum Change {
    Lay(Reach),
    Post(Notice),
    Lift(Notice),
}

// Reaches between places and behind gates that are below these numbers; x is where the sequence stands that they take
// their numbers from.
#[derive(Clone, Copy)]
pub(crate) struct Scatter {
    pub(crate) x: u32,
    pub(crate) places: NonZeroU16,
    pub(crate) gates: NonZeroU16,
}

#[derive(Clone, Copy)]
pub(crate) enum Series {
    // the same change each time
    Same(Change),
    // a reach from each place to the next, from 0 on, all behind one gate
    Chain(Gate),
    // reaches that are scattered
    Scattered(Scatter),
}

// The number that comes after x in the sequence.
fn number_after(x: u32) -> u32
    ensures { result ≡ moved x }
{
    ((75 * u64::from(x) + 74) % 65537) as u32
}

// A number below n.
fn below(x: u32, n: NonZeroU16) -> u16
    ensures { result ≡ x % non_zero_u16_get n }
{
    (x % u32::from(n.get())) as u16
}

impl Scatter {
    // The next reach takes the next three numbers.
    fn next_reach(&mut self) -> Reach
        ensures reach { result ≡ scattered self.old }
        ensures after { self.new ≡ moved_on self.old }
    {
        let from = number_after(self.x);
        let to = number_after(from);
        let gate = number_after(to);
        self.x = gate;
        Reach {
            from: below(from, self.places),
            to: below(to, self.places),
            gate: below(gate, self.gates),
        }
    }
}

impl Series {
    // The change number i, counted from 0.
    pub(crate) fn change(&mut self, i: u16) -> Change
        requires { i < 65535 }
        ensures change { result ≡ change_at i self.old }
        ensures after { self.new ≡ series_after self.old }
    {
        // which it is was read from the input
        match self {
            Series::Same(change) => *change,
            Series::Chain(gate) => Change::Lay(Reach {
                from: i,
                to: i + 1,
                gate: *gate,
            }),
            Series::Scattered(scatter) => Change::Lay(scatter.next_reach()),
        }
    }
}
