//! What a conversion is asked.
ghost use Rattle.std.specs.Prelude.{◌≡◌};
ghost use Rattle.store.specs.Meaning.{meaning as model};
ghost use Rattle.rules_next.specs.Meaning.{Meaning};
ghost use Rattle.conversion.specs.Info.{info_of};
ghost use Rattle.conversion.specs.Asked.{seen, Rewritten};

use crate::operands_info::OperandsInfo;
use model::ids::OpId;
use rewriter::{IRRewriter, Recorder};
use rules_next::interface::ConversionFault;
use store::store::Store;

/// A conversion says which operations and types it converts, and does it. All that it does is fixed by its meaning.
pub trait DialectConversion {
    /// What its answers are, and which calls a rewrite makes.
    ghost meaning: { Meaning Self };

    /// Should this operation be converted?
    fn can_convert_op(&self, store: &Store, op: OpId) -> bool
        ensures { result ≡ meaning.can_op self.now (model store.now) op };

    /// Should this type be converted?
    fn can_convert_type(&self, store: &Store, ty: u32) -> bool
        ensures { result ≡ meaning.can_type self.now (model store.now) ty };

    /// What the type converts to.
    fn convert_type(&mut self, store: &Store, ty: u32) -> Result<u32, ConversionFault>
        ensures answer { result ≡ (meaning.convert self.old (model store.now) ty).answer }
        ensures next { self.new ≡ (meaning.convert self.old (model store.now) ty).next };

    /// Rewrites `op`, by calls of the rewriter alone. The driver has set the insertion point before `op`, and has converted what defines
    /// its operands, but for what lies in graph regions.
    fn rewrite(
        &mut self,
        store: &mut Store,
        rewriter: &mut IRRewriter<Recorder>,
        op: OpId,
        operands: &OperandsInfo,
    ) -> Result<(), ConversionFault>
        ensures { Rewritten meaning self.old (seen store.old rewriter.old) op (info_of operands.now) self.new (seen store.new rewriter.new) result };
}
