// Worked examples, computed by the check.
ghost use Rattle.std.specs.Prelude.{◌≡◌, length};
ghost use Rattle.planner.specs.Worked.{worked, expected};

// How many worked examples there are; each comes out as reckoned by hand. Each crate with examples has its own equation of them,
// and so its own function.
pub fn worked_examples() -> u16
    ensures agree { worked ≡ expected }
    ensures count { result ≡ length expected }
{
    25
}
