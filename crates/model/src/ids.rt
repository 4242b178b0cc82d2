//! Identities and values.
ghost use Rattle.std.specs.Prelude.{◌≡◌};
ghost use Rattle.model.specs.declared.ids.DefiningEntity.TheVariants.{Op, Block};
ghost use Rattle.model.specs.declared.ids.IRNode.TheVariants.{Operation, BasicBlock, Region};

#[derive(Clone, Copy, Debug, Default, PartialEq, Eq, PartialOrd, Ord)]
pub struct OpId {
    pub slot: usize,
    pub generation: u32,
}

// Stays: three identities of two fields; one generic type would need a marker for each kind and a phantom field.
#[derive(Clone, Copy, Debug, Default, PartialEq, Eq, PartialOrd, Ord)]
pub struct BlockId {
    pub slot: usize,
    pub generation: u32,
}

#[derive(Clone, Copy, Debug, Default, PartialEq, Eq, PartialOrd, Ord)]
pub struct RegionId {
    pub slot: usize,
    pub generation: u32,
}

/// What defines a value.
#[derive(Clone, Copy, Debug, PartialEq, Eq)]
pub enum DefiningEntity {
    Op(OpId),
    Block(BlockId),
}

/// What stands in a place of a row that holds no value.
// Stays: by hand, since derive(Default) takes a variant without a field only.
impl Default for DefiningEntity {
    ghost is_default = { λ definer. definer ≡ Op (record { slot = 0; generation = 0 }) };

    fn default() -> DefiningEntity {
        DefiningEntity::Op(OpId::default())
    }
}

/// A result of an operation or an argument of a block.
#[derive(Clone, Copy, Debug, Default, PartialEq, Eq)]
pub struct Value {
    pub definer: DefiningEntity,
    pub index: u8,
}

/// A part of a store, as a walk meets it.
#[derive(Clone, Copy, Debug, PartialEq, Eq, PartialOrd, Ord)]
pub enum IRNode {
    Operation(OpId),
    BasicBlock(BlockId),
    Region(RegionId),
}

/// What a region keeps besides its blocks.
#[derive(Clone, Copy, Debug, PartialEq, Eq)]
pub struct Region {
    // Stays: a bool, as the definitions of what is made and opened have it; an enum of two would be turned into it in each contract.
    pub graph: bool,
    pub owner: OpId,
}

impl From<OpId> for DefiningEntity {
    ghost from_gives = { λ op definer. definer ≡ Op op };

    fn from(op: OpId) -> DefiningEntity {
        DefiningEntity::Op(op)
    }
}

impl From<BlockId> for DefiningEntity {
    ghost from_gives = { λ block definer. definer ≡ Block block };

    fn from(block: BlockId) -> DefiningEntity {
        DefiningEntity::Block(block)
    }
}

impl From<OpId> for IRNode {
    ghost from_gives = { λ op node. node ≡ Operation op };

    fn from(op: OpId) -> IRNode {
        IRNode::Operation(op)
    }
}

impl From<BlockId> for IRNode {
    ghost from_gives = { λ block node. node ≡ BasicBlock block };

    fn from(block: BlockId) -> IRNode {
        IRNode::BasicBlock(block)
    }
}

impl From<RegionId> for IRNode {
    ghost from_gives = { λ region node. node ≡ Region region };

    fn from(region: RegionId) -> IRNode {
        IRNode::Region(region)
    }
}

impl From<DefiningEntity> for IRNode {
    ghost use Rattle.model.specs.Nodes.{node_of};

    ghost from_gives = { λ definer node. node ≡ node_of definer };

    fn from(definer: DefiningEntity) -> IRNode {
        match definer {
            DefiningEntity::Op(op) => IRNode::Operation(op),
            DefiningEntity::Block(block) => IRNode::BasicBlock(block),
        }
    }
}
