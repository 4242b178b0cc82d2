//! What a store holds, in a planner's lines.
use model::ids::{BlockId, DefiningEntity, IRNode, OpId, Value};
use orders::types::Types;
use std::alloc::{AllocError, Global};
use std::collections::BTreeMap;
use std::fmt::Write;
use std::io;
use store::store::Store;
use walkers::Nodes;

/// A store, and the nodes of it in the order of a walk.
#[derive(Clone, Copy)]
pub struct Listing<'a> {
    pub heap: Global,
    pub store: &'a Store,
    pub nodes: &'a [IRNode],
}

impl<'a> Listing<'a> {
    pub fn new(heap: Global, store: &'a Store, nodes: &'a Nodes) -> Listing<'a> {
        Listing {
            heap,
            store,
            nodes: nodes.as_slice(),
        }
    }

    /// The place of an operation among the operations met, the first being 1.
    pub fn number_of(&self, op: OpId) -> Option<usize> {
        self.nodes
            .iter()
            .filter_map(|node| match node {
                IRNode::Operation(met) => Some(*met),
                _ => None,
            })
            .zip(1..)
            .find(|(met, _)| *met == op)
            .map(|(_, number)| number)
    }

    /// The number of the operation that a block lies in.
    fn number_over(&self, block: BlockId) -> Option<usize> {
        let region = self.store.get_parent_region(block)?;
        self.number_of(self.store.get_parent_op(region)?)
    }

    /// A value by the number of its operation and its place among the results; an argument by the operation that its block lies in.
    fn push_value(&self, value: Value, line: &mut String) -> Result<(), AllocError> {
        let number = match value.definer {
            DefiningEntity::Op(op) => self.number_of(op),
            DefiningEntity::Block(block) => self.number_over(block),
        };
        write!(line, " {}.{}", number.unwrap_or(0), value.index)
    }

    /// `NUMBER: kind KIND note NOTE OPERAND .. -> TYPE ..`
    fn operation_line(&self, op: OpId) -> Result<String, AllocError> {
        let number = self.number_of(op).unwrap_or(0);
        let kind = self.store.kind(op).unwrap_or(0);
        let note = self.store.note(op).unwrap_or(0);
        let mut line = format!(in self.heap; "{number}: kind {kind} note {note}")?;
        for operand in self.store.operands(op).unwrap_or(&[]) {
            self.push_value(*operand, &mut line)?;
        }
        let types = Types(self.store.result_types(op).unwrap_or(&[]));
        write!(line, " ->{types}")?;
        Ok(line)
    }

    /// `block of NUMBER: TYPE ..`
    fn block_line(&self, block: BlockId) -> Result<String, AllocError> {
        let number = self.number_over(block).unwrap_or(0);
        let types = Types(self.store.argument_types(block).unwrap_or(&[]));
        format!(in self.heap; "block of {number}:{types}")
    }

    fn totals(&self) -> Result<BTreeMap<u16, u32>, AllocError> {
        let mut all: BTreeMap<u16, u32> = BTreeMap::new(self.heap);
        for node in self.nodes {
            if let IRNode::Operation(op) = node {
                let total = all.entry(self.store.kind(*op).unwrap_or(0))?.or_insert(0);
                *total = total.saturating_add(1);
            }
        }
        Ok(all)
    }

    /// The nodes, a line each, then a total for each kind.
    pub fn print(&self, rt: &HostRuntime) -> io::Result<()> {
        for node in self.nodes {
            match node {
                IRNode::Operation(op) => rt.println(self.operation_line(*op)?)?,
                IRNode::BasicBlock(block) => rt.println(self.block_line(*block)?)?,
                IRNode::Region(_) => {}
            }
        }
        for (kind, total) in self.totals()?.iter() {
            println!(rt; "total of kind {kind}: {total}")?;
        }
        Ok(())
    }
}
