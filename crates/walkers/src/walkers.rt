//! Walks in pre-order: an operation before its regions, a block before its operations.
ghost use Rattle.std.specs.Prelude.{◌≡◌, ◌++◌};
ghost use Rattle.model.specs.Sound.{Sound};
ghost use Rattle.model.specs.Walk.{walk, region_by, block_by};
ghost use Rattle.tables.specs.View.{view};
ghost use Rattle.walkers.specs.Listed.{nodes_in, Room};

use crate::nodes::Nodes;
use model::ids::IRNode;
use tables::tables::Tables;

// Stays: the three below call one another over the plain tables, a rule of the project; so each asks for `Sound` of them, and no type carries it.
/// Meets the operation in the slot `op`, and all that lies in it.
#[cycle(walking)]
pub fn walk_op(tables: &Tables, op: usize, nodes: &mut Nodes)
    requires sound { Sound (view tables.now) }
    requires room { Room nodes.old (walk (view tables.now) op) }
    ensures { nodes_in nodes.new ≡ nodes_in nodes.old ++ walk (view tables.now) op }
{
    nodes.push(IRNode::Operation(tables.op_id(op)));
    let Some(operation) = tables.operations.peek(op) else {
        return;
    };
    for region in operation.regions.as_slice() {
        walk_region(tables, region.slot, nodes);
    }
}

/// Meets what lies in the region in the slot `region`, block by block.
#[cycle(walking)]
pub fn walk_region(tables: &Tables, region: usize, nodes: &mut Nodes)
    requires sound { Sound (view tables.now) }
    requires room { Room nodes.old (region_by (view tables.now) (walk (view tables.now)) region) }
    ensures { nodes_in nodes.new ≡ nodes_in nodes.old ++ region_by (view tables.now) (walk (view tables.now)) region }
{
    // Stays: a cursor, here and in the loops like it; `successors` would take a closure that asks the same table, and is no shorter.
    let mut cursor = tables.block_lists.get_head(region);
    while let Some(block) = cursor {
        walk_block(tables, block, nodes);
        cursor = tables.block_lists.get_next(block);
    }
}

/// Meets the block in the slot `block`, and all that lies in it.
#[cycle(walking)]
pub fn walk_block(tables: &Tables, block: usize, nodes: &mut Nodes)
    requires sound { Sound (view tables.now) }
    requires room { Room nodes.old (block_by (view tables.now) (walk (view tables.now)) block) }
    ensures { nodes_in nodes.new ≡ nodes_in nodes.old ++ block_by (view tables.now) (walk (view tables.now)) block }
{
    nodes.push(IRNode::BasicBlock(tables.block_id(block)));
    let mut cursor = tables.op_lists.get_head(block);
    while let Some(op) = cursor {
        walk_op(tables, op, nodes);
        cursor = tables.op_lists.get_next(op);
    }
}
