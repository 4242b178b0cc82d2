//! Nodes go out of the lists that they are in, and their slots are free.
ghost use Rattle.std.specs.Prelude.{◌≡◌, MatchOption, None, nat_eq};
ghost use Rattle.lists.specs.Walk.{without};
ghost use Rattle.lists.specs.Lists.{members, home, Relinked};
ghost use Rattle.model.specs.Sound.{Sound};
ghost use Rattle.model.specs.Erasing.{disowned, erase_node, erased};
ghost use Rattle.tables.specs.View.{view, sizes, view_op, Changed};

use lists::lists::LinkedLists;
use model::ids::IRNode;
use slots::Table;
use tables::records::Operation;
use tables::tables::Tables;

/// Takes `node` out of the list that it is in, where it is in one.
fn take_out(lists: &mut LinkedLists, node: usize)
    ensures { MatchOption (home lists.old node) (lists.new ≡ lists.old) (λ c. Relinked lists.old lists.new c (without node (members lists.old c)) node None) }
{
    if lists.get_container(node).is_some() {
        lists.unlink(node);
    }
}

/// The region in `slot` is no longer among the regions of the operation in the slot `owner`.
fn disown(operations: &mut Table<Operation>, owner: usize, slot: usize)
    ensures { Changed view_op (disowned (λ k. nat_eq k slot)) owner operations.old operations.new }
{
    operations.change(owner, |operation| {
        operation.regions.retain(|region| region.slot != slot);
    });
}

/// Takes `node` out of the list that it is in, and frees its slot.
pub fn erase_node(tables: &mut Tables, node: IRNode)
    ensures after { view tables.new ≡ erase_node (view tables.old) node }
    ensures sizes { sizes tables.new ≡ sizes tables.old }
{
    match node {
        IRNode::Operation(op) => {
            take_out(&mut tables.op_lists, op.slot);
            tables.operations.release(op.slot);
        }
        IRNode::BasicBlock(block) => {
            take_out(&mut tables.block_lists, block.slot);
            tables.blocks.release(block.slot);
        }
        IRNode::Region(region) => {
            if let Some(record) = tables.regions.peek(region.slot) {
                let owner = record.owner.slot;
                disown(&mut tables.operations, owner, region.slot);
            }
            tables.regions.release(region.slot);
        }
    }
}

/// Erases `nodes`, one after another.
pub fn erase_nodes(tables: &mut Tables, nodes: &[IRNode])
    requires { Sound (view tables.old) }
    ensures after { view tables.new ≡ erased (view tables.old) nodes.now }
    ensures sizes { sizes tables.new ≡ sizes tables.old }
{
    for node in nodes {
        erase_node(tables, *node);
    }
}
