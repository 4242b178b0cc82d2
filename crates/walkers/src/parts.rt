//! The nodes of a part of a store, in the order in which they are erased: what lies in a node before the node itself, and the last before the first.
ghost use Rattle.std.specs.Prelude.{◌≡◌, ◌++◌, reverse};
ghost use Rattle.std.specs.List.{flat_map};
ghost use Rattle.model.specs.Sound.{Sound};
ghost use Rattle.model.specs.Walk.{slots_of_regions};
ghost use Rattle.model.specs.Erasing.{body_nodes, block_nodes, edge_nodes, region_nodes, op_nodes, part_of};
ghost use Rattle.tables.specs.View.{view};
ghost use Rattle.walkers.specs.Listed.{nodes_in, Room};

use crate::nodes::Nodes;
use model::ids::IRNode;
use tables::tables::Tables;

// Stays: as the walks, these go over the plain tables, and four of them call one another; so each asks for `Sound` of them, and no type carries it.
/// Lists what lies in the operation in the slot `op`, then the operation.
#[cycle(listing)]
pub fn list_op(tables: &Tables, op: usize, nodes: &mut Nodes)
    requires sound { Sound (view tables.now) }
    requires room { Room nodes.old (op_nodes (view tables.now) op) }
    ensures { nodes_in nodes.new ≡ nodes_in nodes.old ++ op_nodes (view tables.now) op }
{
    list_regions(tables, op, nodes);
    nodes.push(IRNode::Operation(tables.op_id(op)));
}

// Stays: a function of its own; inside `list_op` it makes that the one that calls itself, and each operation then costs a call.
/// Lists the regions of the operation in the slot `op`, the last first.
#[cycle(listing)]
fn list_regions(tables: &Tables, op: usize, nodes: &mut Nodes)
    requires sound { Sound (view tables.now) }
    requires room { Room nodes.old (flat_map (region_nodes (view tables.now) (op_nodes (view tables.now))) (reverse (slots_of_regions (view tables.now) op))) }
    ensures { nodes_in nodes.new ≡ nodes_in nodes.old ++ flat_map (region_nodes (view tables.now) (op_nodes (view tables.now))) (reverse (slots_of_regions (view tables.now) op)) }
{
    if let Some(operation) = tables.operations.peek(op) {
        for region in operation.regions.as_slice().iter().rev() {
            list_region(tables, region.slot, nodes);
        }
    }
}

/// Lists what lies in the blocks of the region in the slot `region`, then the blocks, then the region.
#[cycle(listing)]
pub fn list_region(tables: &Tables, region: usize, nodes: &mut Nodes)
    requires sound { Sound (view tables.now) }
    requires room { Room nodes.old (region_nodes (view tables.now) (op_nodes (view tables.now)) region) }
    ensures { nodes_in nodes.new ≡ nodes_in nodes.old ++ region_nodes (view tables.now) (op_nodes (view tables.now)) region }
{
    let mut cursor = tables.block_lists.get_tail(region);
    while let Some(block) = cursor {
        list_body(tables, block, nodes);
        cursor = tables.block_lists.get_prev(block);
    }
    list_edge(tables, region, nodes);
}

/// Lists what lies in the block in the slot `block`, the last operation first.
#[cycle(listing)]
fn list_body(tables: &Tables, block: usize, nodes: &mut Nodes)
    requires sound { Sound (view tables.now) }
    requires room { Room nodes.old (body_nodes (view tables.now) (op_nodes (view tables.now)) block) }
    ensures { nodes_in nodes.new ≡ nodes_in nodes.old ++ body_nodes (view tables.now) (op_nodes (view tables.now)) block }
{
    let mut cursor = tables.op_lists.get_tail(block);
    while let Some(op) = cursor {
        list_op(tables, op, nodes);
        cursor = tables.op_lists.get_prev(op);
    }
}

/// Lists the blocks of the region in the slot `region`, the first one first, then the region.
fn list_edge(tables: &Tables, region: usize, nodes: &mut Nodes)
    requires sound { Sound (view tables.now) }
    requires room { Room nodes.old (edge_nodes (view tables.now) region) }
    ensures { nodes_in nodes.new ≡ nodes_in nodes.old ++ edge_nodes (view tables.now) region }
{
    let mut cursor = tables.block_lists.get_head(region);
    while let Some(block) = cursor {
        nodes.push(IRNode::BasicBlock(tables.block_id(block)));
        cursor = tables.block_lists.get_next(block);
    }
    nodes.push(IRNode::Region(tables.region_id(region)));
}

/// Lists what lies in the block in the slot `block`, then the block.
pub fn list_block(tables: &Tables, block: usize, nodes: &mut Nodes)
    requires sound { Sound (view tables.now) }
    requires room { Room nodes.old (block_nodes (view tables.now) (op_nodes (view tables.now)) block) }
    ensures { nodes_in nodes.new ≡ nodes_in nodes.old ++ block_nodes (view tables.now) (op_nodes (view tables.now)) block }
{
    list_body(tables, block, nodes);
    nodes.push(IRNode::BasicBlock(tables.block_id(block)));
}

/// Lists what lies in `node`, then the node.
pub fn list_part(tables: &Tables, node: IRNode, nodes: &mut Nodes)
    requires sound { Sound (view tables.now) }
    requires room { Room nodes.old (part_of (view tables.now) node) }
    ensures { nodes_in nodes.new ≡ nodes_in nodes.old ++ part_of (view tables.now) node }
{
    match node {
        IRNode::Operation(op) => list_op(tables, op.slot, nodes),
        IRNode::BasicBlock(block) => list_block(tables, block.slot, nodes),
        IRNode::Region(region) => list_region(tables, region.slot, nodes),
    }
}
