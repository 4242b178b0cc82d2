//! The rules of the driver: what it keeps, what a conversion means to it, and what each step does. They stand in specs/.
// The edition that landed, and all that both editions share; `rules_next` has what is to become different. There are two since this one stands until the driver carries the theorem whole; then the older one goes.

#![tactic(auto)]

ghost use Rattle.rules.specs.Determined.{RulesDetermined};
ghost use Rattle.rules.specs.Law.{DriverLaw};

pub mod interface;

pub use interface::{Layer, Phase};

/// For every meaning of a conversion, each world that is reached from an accepted beginning keeps the law.
pub fn law_holds<C>(_conversion: &C)
    ensures { DriverLaw C }
{}

/// The rules leave nothing open but the slots that rewrites pick.
pub fn rules_determined<C>(_conversion: &C)
    ensures { RulesDetermined C }
{}
