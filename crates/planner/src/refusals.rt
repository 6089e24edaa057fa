// Why a call is declined.
ghost use Rattle.std.specs.Prelude.{◌≡◌, Some};
ghost use Rattle.planner.specs.Refusals.{number};
ghost use Rattle.planner.specs.Texts.{refusal_text};
ghost use Rattle.planner.specs.declared.refusals.Refusal.TheVariants.{Layer};

use layers::notices::refusals::Refusal as LayerRefusal;
use std::fmt;

#[derive(Clone, Copy, PartialEq, Eq, Debug)]
pub enum Refusal {
    // there are fewer than 4,096 scratch cells
    FewCells,
    // the leg list has fewer than 63 entries
    FewLegs,
    // a place is above 63
    NoPlace,
    // the instant is above 20,160
    NoInstant,
    // no journey of the kind asked for exists
    NoJourney,
    // 256 reaches are laid
    ChartFull,
    // there is no such gate, or the layer of notices declines
    Layer(LayerRefusal),
}

impl From<LayerRefusal> for Refusal {
    ghost from_gives = { λ f r. r ≡ Layer f };

    fn from(refusal: LayerRefusal) -> Refusal {
        Refusal::Layer(refusal)
    }
}

impl From<Refusal> for u16 {
    ghost from_gives = { λ refusal given. given ≡ number refusal };

    fn from(refusal: Refusal) -> u16 {
        match refusal {
            Refusal::FewCells => 1,
            Refusal::FewLegs => 2,
            Refusal::NoPlace => 3,
            Refusal::NoInstant => 4,
            Refusal::NoJourney => 5,
            Refusal::ChartFull => 6,
            Refusal::Layer(refusal) => u16::from(refusal),
        }
    }
}

// Its number.
impl fmt::Display for Refusal {
    ghost output = { λ refusal. Some (refusal_text refusal) };

    fn fmt<W: fmt::Write>(&self, f: &mut fmt::Formatter<W>) -> fmt::Result {
        write!(f, "{}", u16::from(*self))
    }
}
