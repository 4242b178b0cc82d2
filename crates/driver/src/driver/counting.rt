//! Counting.
ghost use Rattle.std.specs.Prelude.{◌≡◌, ◌+◌, ◌*◌, ◌^◌, ◌<◌, ◌≤◌, Some};
ghost use Rattle.rules.specs.declared.interface.Phase.TheVariants.{Closed};
ghost use Rattle.rules_next.specs.Rules.{took_one, fated, with_queued};
ghost use Rattle.model.specs.declared.ids.IRNode.TheVariants.{Operation};
ghost use Rattle.driver.specs.Counted.{Counted};
ghost use Rattle.driver.specs.Total.{total};

use super::Driver;
use model::ids::{IRNode, OpId};
use rules_next::interface::{Counts, Failure, Fate, Fault, Phase, TrailRecord};

// Stays: a function here; as a public method of `Counts`, which the rules own, it would ask its callers for the bound.
/// `counts` with one more entry that met this fate.
fn add_fate(counts: Counts, fate: Fate) -> Counts
    requires { total counts < 2048 * (2 ^ 40 + 1) }
    ensures { result ≡ fated counts fate }
{
    match fate {
        Fate::Rewritten => Counts {
            rewritten: counts.rewritten + 1,
            ..counts
        },
        Fate::SetAside => Counts {
            aside: counts.aside + 1,
            ..counts
        },
        Fate::Waits => Counts {
            waits: counts.waits + 1,
            ..counts
        },
        Fate::Stale => Counts {
            stale: counts.stale + 1,
            ..counts
        },
    }
}

impl Driver {
    // Stays: how far `queued` may have grown is a fact of the step that ends here, and of no value that could carry it.
    /// One step more, which took an entry; `queued` operations have ever been queued now.
    fn take_entry(&mut self, queued: u64)
        requires steps { self.old.steps < 2 ^ 40 }
        requires few { queued ≤ self.old.counts.queued + 1024 }
        ensures { Counted self.old (with_queued (took_one self.old.counts) queued) self.old.phase self.new }
    {
        self.counts = Counts {
            queued,
            taken: self.counts.taken + 1,
            ..self.counts
        };
        self.steps += 1;
    }

    /// The step that took the entry of `op` ends so; `queued` operations have ever been queued now.
    pub fn count_entry(&mut self, op: OpId, fate: Fate, queued: u64) -> TrailRecord
        requires steps { self.old.steps < 2 ^ 40 }
        requires few { queued ≤ self.old.counts.queued + 1024 }
        ensures record { result ≡ record { operation = op; fate = fate } }
        ensures counted { Counted self.old (with_queued (fated (took_one self.old.counts) fate) queued) self.old.phase self.new }
    {
        self.take_entry(queued);
        self.counts = add_fate(self.counts, fate);
        TrailRecord {
            operation: op,
            fate,
        }
    }

    /// The step that took the entry of `op` ends in a fault, which closes the conversion.
    pub fn close_entry(&mut self, op: OpId, fault: Fault, queued: u64) -> Failure
        requires steps { self.old.steps < 2 ^ 40 }
        requires few { queued ≤ self.old.counts.queued + 1024 }
        ensures failure { result ≡ record { fault = fault; hand = Some (Operation op) } }
        ensures counted { Counted self.old (with_queued (took_one self.old.counts) queued) Closed self.new }
    {
        self.take_entry(queued);
        self.phase = Phase::Closed;
        Failure {
            fault,
            hand: Some(IRNode::Operation(op)),
        }
    }
}
