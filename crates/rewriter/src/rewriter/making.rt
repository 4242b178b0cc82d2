//! Rewriters, and their insertion points.
ghost use Rattle.std.specs.Prelude.{◌≡◌, IfOk};
ghost use Rattle.model.specs.declared.points.OpInsertionPoint.TheVariants.{Unset};
ghost use Rattle.calls.specs.World.{make, made};
ghost use Rattle.calls.specs.Laws.{LawfulCalls, RefusedSame};
ghost use Rattle.calls.specs.Examples.{ErasesTwoBlocks};
ghost use Rattle.rewriter.specs.Seen.{Does, answered, PointSet};

use crate::listener::RewriteListener;
use crate::rewriter::IRRewriter;
use model::ids::{OpId, Value};
use model::points::OpInsertionPoint;
use model::refusal::Refusal;
use std::alloc::{AllocError, Global};
use store::store::Store;
use walkers::Nodes;

impl<L: RewriteListener + Drop> IRRewriter<L> {
    /// A rewriter that tells `listener`, with no insertion point. The memory for the nodes of a part is taken here. The laws of its calls hold.
    pub fn new(heap: Global, listener: L) -> Result<IRRewriter<L>, AllocError>
        ensures fresh { IfOk result (λ s. (s.point ≡ Unset) × (s.listener ≡ listener)) }
        ensures lawful { LawfulCalls }
        ensures refusing { RefusedSame }
        ensures order { ErasesTwoBlocks }
    {
        let part = Nodes::new(heap)?;
        Ok(IRRewriter {
            point: OpInsertionPoint::Unset,
            listener,
            part,
        })
    }
}

impl<L: RewriteListener> IRRewriter<L> {
    pub fn get_insertion_point(&self) -> OpInsertionPoint
        ensures { result ≡ self.now.point }
    {
        self.point
    }

    /// Takes any point: it is looked at when it is used.
    pub fn set_insertion_point(&mut self, point: OpInsertionPoint)
        ensures point { self.new.point ≡ point }
        ensures listener { self.new.listener ≡ self.old.listener }
        ensures call { PointSet L.keeps L.log self.old point self.new }
    {
        self.point = point;
    }

    pub fn get_listener(&self) -> &L
        ensures { result.now ≡ self.now.listener }
    {
        &self.listener
    }

    /// Makes an operation in no block, with an empty region for each mark of `regions` (`true`: a graph region). No record is made.
    // Stays: five arguments, as making takes them at each level below; a struct of borrowed lists would be built for one call and taken apart in it.
    pub fn make_operation(
        &mut self,
        store: &mut Store,
        kind: u16,
        note: u32,
        operands: &[Value],
        result_types: &[u32],
        regions: &[bool],
    ) -> Result<OpId, Refusal>
        ensures { Does L.keeps L.log store.old self.old (make kind note operands.now result_types.now regions.now) store.new self.new (answered made result) }
    {
        store.make_operation(kind, note, operands, result_types, regions)
    }
}
