//! A store and a rewriter, with names for what was made.
use crate::words::{number, parted};
use model::ids::{BlockId, DefiningEntity, IRNode, OpId, RegionId, Value};
use model::points::{BlockInsertionPoint, OpInsertionPoint};
use rewriter::{IRRewriter, Recorder};
use std::alloc::{AllocError, Global};
use std::collections::{BTreeMap, HashMap};
use store::store::Store;
use walkers::Nodes;

/// The names are pieces of the text that the calls stand in.
#[derive(Drop)]
pub struct Bench<'a> {
    pub heap: Global,
    pub store: Store,
    pub rewriter: IRRewriter<Recorder>,
    pub nodes: Nodes,
    /// The last thing of each name.
    named: HashMap<&'a str, IRNode>,
    /// The name of each thing.
    pub names: BTreeMap<IRNode, &'a str>,
}

/// The slot of what was never made.
// Stays: a call of a dead identity is tried, so there has to be one to pass to it.
const NO_SLOT: usize = 9999;

const NO_OP: OpId = OpId {
    slot: NO_SLOT,
    generation: 0,
};

impl<'a> Bench<'a> {
    pub fn new(heap: Global) -> Result<Bench<'a>, AllocError> {
        Ok(Bench {
            heap,
            store: Store::new(heap)?,
            rewriter: IRRewriter::new(heap, Recorder::new(heap)?)?,
            nodes: Nodes::new(heap)?,
            named: HashMap::new(heap),
            names: BTreeMap::new(heap),
        })
    }

    /// The last thing of this name.
    fn named(&self, name: &str) -> Option<IRNode> {
        self.named.get(name).copied()
    }

    /// What a word names; `x/1` is the region 1 of the operation x.
    pub fn node(&self, text: &str) -> IRNode {
        if text.contains("/") {
            return self.region(text).into();
        }
        self.named(text).unwrap_or(IRNode::Operation(NO_OP))
    }

    pub fn op(&self, name: &str) -> OpId {
        match self.named(name) {
            Some(IRNode::Operation(op)) => op,
            _ => NO_OP,
        }
    }

    pub fn block(&self, name: &str) -> BlockId {
        match self.named(name) {
            Some(IRNode::BasicBlock(block)) => block,
            _ => BlockId {
                slot: NO_SLOT,
                generation: 0,
            },
        }
    }

    pub fn region(&self, text: &str) -> RegionId {
        let (name, index) = parted(text, "/");
        self.store
            .regions(self.op(name))
            .and_then(|regions| regions.get(index as usize))
            .copied()
            .unwrap_or(RegionId {
                slot: NO_SLOT,
                generation: 0,
            })
    }

    /// `x.1` is the result 1 of the operation x, or the argument 1 of the block x.
    pub fn value(&self, text: &str) -> Value {
        let (name, index) = parted(text, ".");
        let definer = match self.node(name) {
            IRNode::Operation(op) => DefiningEntity::Op(op),
            IRNode::BasicBlock(block) => DefiningEntity::Block(block),
            IRNode::Region(_) => DefiningEntity::Op(NO_OP),
        };
        Value {
            definer,
            index: (index % 256) as u8,
        }
    }

    /// The values named from the word `from` on, up to an arrow or a slash.
    pub fn values(&self, line: &str, from: usize) -> Result<Vec<Value>, AllocError> {
        line.split_whitespace()
            .take_while(|each| *each != "->" && *each != "/")
            .skip(from)
            .map(|each| self.value(each))
            .collect(self.heap)
    }

    /// The numbers behind the arrow, up to a slash.
    pub fn types(&self, line: &str) -> Result<Vec<u32>, AllocError> {
        line.split_whitespace()
            .take_while(|each| *each != "/")
            .skip_while(|each| *each != "->")
            .skip(1)
            .map(number)
            .collect(self.heap)
    }

    /// The marks behind the slash: `graph` or anything else.
    pub fn marks(&self, line: &str) -> Result<Vec<bool>, AllocError> {
        line.split_whitespace()
            .skip_while(|each| *each != "/")
            .skip(1)
            .map(|each| each == "graph")
            .collect(self.heap)
    }

    /// The point that the words at `from` and behind it tell.
    pub fn op_point(&self, line: &str, from: usize) -> OpInsertionPoint {
        let mut words = line.split_whitespace().skip(from);
        let (place, name) = (words.next(), words.next().unwrap_or(""));
        match place {
            Some("start") => OpInsertionPoint::AtBlockStart(self.block(name)),
            Some("end") => OpInsertionPoint::AtBlockEnd(self.block(name)),
            Some("after") => OpInsertionPoint::AfterOperation(self.op(name)),
            Some("before") => OpInsertionPoint::BeforeOperation(self.op(name)),
            _ => OpInsertionPoint::Unset,
        }
    }

    // Stays: beside `op_point`, since the two kinds of points are two types.
    pub fn block_point(&self, line: &str, from: usize) -> BlockInsertionPoint {
        let mut words = line.split_whitespace().skip(from);
        let (place, name) = (words.next(), words.next().unwrap_or(""));
        match place {
            Some("start") => BlockInsertionPoint::AtRegionStart(self.region(name)),
            Some("end") => BlockInsertionPoint::AtRegionEnd(self.region(name)),
            Some("after") => BlockInsertionPoint::AfterBlock(self.block(name)),
            Some("before") => BlockInsertionPoint::BeforeBlock(self.block(name)),
            _ => BlockInsertionPoint::Unset,
        }
    }

    /// Gives a node that was just made this name.
    pub fn call(&mut self, name: &'a str, node: IRNode) -> Result<(), AllocError> {
        self.named.insert(name, node)?;
        self.names.insert(node, name)?;
        Ok(())
    }

    /// The name of a node, `?` where it has none.
    pub fn name_of<N: Into<IRNode>>(&self, node: N) -> &'a str {
        let node = node.into();
        match self.names.get(&node) {
            Some(name) => *name,
            None => "?",
        }
    }
}
