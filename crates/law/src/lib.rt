//! The law of a driver's worklist, over any store and any conversion.

#![tactic(auto)]

ghost use Rattle.law.specs.Law.{Law};
ghost use Rattle.law.specs.Example.{Cases};

/// Every run keeps the law: no operation is rewritten twice, none is left out, and waits and entries taken are few.
pub fn law_holds<O, E, M, T>(_operation: &O, _environment: &E, _rewrite: &M, _question: &T)
    ensures { Law O E M T }
{}

/// What small runs come to.
pub fn cases_hold()
    ensures { Cases }
{}
