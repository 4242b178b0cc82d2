//! A list of nodes whose memory is reserved when it is made.
use bounded::Bounded;
use model::ids::IRNode;
use model::limits::{BLOCKS, OPERATIONS, REGIONS};

/// There is room for every node of a store.
pub const NODES: usize = OPERATIONS + BLOCKS + REGIONS;

pub type Nodes = Bounded<IRNode, NODES>;
