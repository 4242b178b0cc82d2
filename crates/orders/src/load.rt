//! An order, made in a store.
use crate::line::{Reference, is_blank, read_line};
use crate::reason::{Fault, Reason};
use model::ids::{DefiningEntity, OpId, Value};
use model::points::BlockInsertionPoint;
use model::refusal::Refusal;
use rewriter::{DummyListener, IRRewriter};
use std::alloc::Global;
use std::collections::BTreeMap;
use store::store::Store;

/// What was read so far: the order itself, the rewriter whose insertion point is the end of its one block, and what the values of each line belong to.
#[derive(Drop)]
struct Loaded<'a> {
    heap: Global,
    store: &'a mut Store,
    root: OpId,
    rewriter: IRRewriter<DummyListener>,
    definers: BTreeMap<usize, DefiningEntity>,
}

impl<'a> Loaded<'a> {
    /// The order itself: an operation over one SSA region with one block, whose arguments have the line's types.
    fn order(
        heap: Global,
        store: &'a mut Store,
        number: usize,
        text: &str,
    ) -> Result<Loaded<'a>, Reason> {
        let line = read_line(heap, text)?;
        if !line.operands.is_empty() {
            return Err(Reason::OrderWithOperands);
        }
        let mut rewriter = IRRewriter::new(heap, DummyListener)?;
        let root = rewriter.make_operation(store, line.kind, line.note, &[], &[], &[false])?;
        let region = store
            .regions(root)
            .and_then(|regions| regions.first())
            .copied()
            .ok_or(Refusal::NotLive)?;
        let block = rewriter.create_block(
            store,
            BlockInsertionPoint::AtRegionEnd(region),
            line.types.as_slice(),
        )?;
        let mut definers = BTreeMap::new(heap);
        definers.insert(number, block.into())?;
        Ok(Loaded {
            heap,
            store,
            root,
            rewriter,
            definers,
        })
    }

    fn value(&self, reference: &Reference) -> Result<Value, Reason> {
        let definer = self
            .definers
            .get(&reference.line)
            .ok_or(Reason::NoSuchLine(reference.word))?;
        Ok(Value {
            definer: *definer,
            index: reference.index,
        })
    }

    /// Puts an operation at the end of the order's block.
    fn append(&mut self, number: usize, text: &str) -> Result<(), Reason> {
        let line = read_line(self.heap, text)?;
        let operands: Vec<Value> = line
            .operands
            .iter()
            .map(|reference| self.value(reference))
            .try_collect(self.heap)?;
        let op = self.rewriter.make_operation(
            self.store,
            line.kind,
            line.note,
            operands.as_slice(),
            line.types.as_slice(),
            &[],
        )?;
        self.rewriter.append_operation(self.store, op)?;
        self.definers.insert(number, op.into())?;
        Ok(())
    }
}

/// Makes the order that `text` tells in `store`, and answers the operation that holds it.
/// Where a line is not of the form, or the store refuses it, the lines above it stay made.
pub fn load(heap: Global, store: &mut Store, text: &str) -> Result<OpId, Fault> {
    // Stays: counted while the lines are read, so that the text is gone through once.
    let mut last: usize = 0;
    let mut lines = text
        .lines()
        .map(|line| {
            last = last.saturating_add(1);
            (last, line)
        })
        .filter(|(_, line)| !is_blank(line));
    let Some((line, first)) = lines.next() else {
        return Err(Fault {
            line: last,
            reason: Reason::Empty,
        });
    };
    let mut loaded = Loaded::order(heap, store, line, first).map_err(|reason| Fault {
        line,
        reason,
    })?;
    for (line, text) in lines {
        loaded
            .append(line, text)
            .map_err(|reason| Fault { line, reason })?;
    }
    Ok(loaded.root)
}
