//! The rules of the driver: what it keeps, what a conversion means to it, and what each step does. They stand in specs/.
// The rules as they are to become: only what differs from the edition that landed, crate `rules`, which has all that both share. There are two since that one stands until the driver carries the theorem whole; then the older one goes.
#![tactic(auto)]

ghost use Rattle.rules_next.specs.Determined.{RulesDetermined};
ghost use Rattle.rules_next.specs.Law.{DriverLaw};
ghost use Rattle.rules_next.specs.Rejects.{RulesReject};

pub mod interface;

pub use interface::{Layer, Phase};

/// For every meaning of a conversion, every list of `begin` and `run` calls keeps the law.
pub fn law_holds<C>(_conversion: &C)
    ensures { DriverLaw C }
{}

/// The rules leave nothing open but the slots that rewrites pick.
pub fn rules_determined<C>(_conversion: &C)
    ensures { RulesDetermined C }
{}

/// The rules let through no early end, no work beyond the budget, no invented wait or Circle, and no other store than the conversion's calls leave.
pub fn rules_reject<C>(_conversion: &C)
    ensures { RulesReject C }
{}
