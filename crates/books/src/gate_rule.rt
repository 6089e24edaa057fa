// What a gate of either book tells: when it lets a boat in, and when the boat comes out.
ghost use Rattle.std.specs.Prelude.{◌≡◌, ℕ, ◌+◌, ◌≤◌, Bool, true, Some};
ghost use Rattle.books.specs.Extremes.{Least, Greatest};
ghost use Rattle.books.specs.Meaning.{first_open, last_open};
ghost use Rattle.books.specs.Records.{exit_by};

use crate::book::Instant;

// The rule of one gate. `minutes` is how long a passage takes, `opens` tells at which instants a boat may
// enter, and `Sound` is what the gate's records keep to.
pub trait GateRule {
    ghost minutes: { Self → ℕ };

    ghost opens: { Self → ℕ → Bool };

    // A tide is a public record of plain numbers, so its type can't promise this: the methods ask for it.
    ghost Sound: { Self → Type 0 };

    fn minutes(&self) -> u16
        ensures { result ≡ minutes self.now };

    // The least instant from t on at which the gate lets a boat in.
    fn first_entry(&self, t: Instant) -> Option<Instant>
        requires { Sound self.now }
        ensures { Least (opens self.now) t result };

    // The greatest from which the boat comes out by t.
    fn last_entry(&self, t: Instant) -> Option<Instant>
        requires { Sound self.now }
        ensures { Greatest (opens self.now) (minutes self.now) t result };

    // A passage ends in the fortnight.
    ghost ends: { (gate : Self) (s : ℕ) → opens gate s ≡ true → s + minutes gate ≤ 20160 };

    // The passage of a boat that enters at s.
    final fn passage(&self, s: Instant) -> (Instant, Instant)
        requires { opens self.now s ≡ true }
        ensures { result ≡ (s, s + minutes self.now) }
    {
        (s, s + self.minutes())
    }

    // The first passage of a boat that is at the gate from t on.
    final fn first_passage(&self, t: Instant) -> Option<(Instant, Instant)>
        requires { Sound self.now }
        ensures { result ≡ first_open (exit_by minutes opens (Some self.now)) t }
    {
        self.first_entry(t).map(|s| self.passage(s))
    }

    // The last of a boat that is out by t.
    final fn last_passage(&self, t: Instant) -> Option<(Instant, Instant)>
        requires { Sound self.now }
        ensures { result ≡ last_open (exit_by minutes opens (Some self.now)) t }
    {
        self.last_entry(t).map(|s| self.passage(s))
    }
}
