// Reckonings: what a search works with.
ghost use Rattle.std.specs.Prelude.{◌≡◌, ℕ, Bool, Option};
ghost use Rattle.search.specs.Laws.{Antisymmetric, Laws};

use crate::reaches::Gate;

// A reckoning names a sort of label, tells when one label is at least as good as another, and how a label
// goes on through a gate, if it can. `laws` and `antisymmetric` are what it owes.
pub trait Reckoning {
    type Label: Copy;

    ghost good: { Self → Self.Label → Self.Label → Bool };

    ghost goes: { Self → ℕ → Self.Label → Option Self.Label };

    ghost laws: { (r : Self) → Laws (good r) (goes r) };

    ghost antisymmetric: { (r : Self) → Antisymmetric (good r) };

    // Whether x is at least as good as y.
    fn at_least(&self, x: Self::Label, y: Self::Label) -> bool
        ensures { result ≡ good self.now x y };

    // What x goes on to through the gate.
    fn go(&self, gate: Gate, x: Self::Label) -> Option<Self::Label>
        ensures { result ≡ goes self.now gate x };
}
