//! Which values of some nodes are still used by operations that are not among them.
ghost use Rattle.std.specs.Prelude.{◌≡◌, false, if◌then◌else◌};
ghost use Rattle.slots.specs.Cells.{cell_at, holds};
ghost use Rattle.model.specs.Calls.{chained, replace_each};
ghost use Rattle.model.specs.Erasing.{has_op, defines, some_defined, operands_of, used_outside};
ghost use Rattle.tables.specs.View.{view};

use model::ids::{DefiningEntity, IRNode, Value};
use tables::tables::Tables;
use tables::tables::changes::exchange;

/// Is the operation in `slot` among `nodes`?
fn has_op(nodes: &[IRNode], slot: usize) -> bool
    ensures { result ≡ has_op nodes.now slot }
{
    nodes.iter().any(|node| matches!(*node, IRNode::Operation(op) if op.slot == slot))
}

// Stays: beside `has_op`, since the definitions ask by slot here and by definer there.
/// Is `definer` one of `nodes`, by its slot?
fn has_definer(nodes: &[IRNode], definer: DefiningEntity) -> bool
    ensures { result ≡ defines nodes.now definer }
{
    nodes.iter().any(|node| match (*node, definer) {
        (IRNode::Operation(op), DefiningEntity::Op(of)) => op.slot == of.slot,
        (IRNode::BasicBlock(block), DefiningEntity::Block(of)) => block.slot == of.slot,
        _ => false,
    })
}

/// Each of `olds`, in order, gives way to the one of `news` in the same place.
#[derive(Clone, Copy)]
struct Exchange<'a> {
    // Stays: two lists, one the operation's own row and the other the caller's; pairs would need memory for a third.
    olds: &'a [Value],
    news: &'a [Value],
}

impl<'a> Exchange<'a> {
    /// What `value` becomes.
    fn apply(&self, value: Value) -> Value
        ensures { result ≡ chained self.now.olds.now self.now.news.now value }
    {
        self.olds
            .iter()
            .zip(self.news)
            .fold(value, |current, (old, new)| exchange(current, *old, *new))
    }
}

/// Does one of `nodes` define one of `values`?
pub fn some_defined(nodes: &[IRNode], values: &[Value]) -> bool
    ensures { result ≡ some_defined nodes.now values.now }
{
    values.iter().any(|value| has_definer(nodes, value.definer))
}

/// Would the operation in `slot` use a value of `nodes` without being one of them?
fn uses_from_outside(tables: &Tables, nodes: &[IRNode], change: &Exchange, slot: usize) -> bool
    ensures { result ≡ (if has_op nodes.now slot then false else some_defined nodes.now (operands_of (holds (cell_at (replace_each (view tables.now) change.now.olds.now change.now.news.now).ops slot)))) }
{
    let Some(operation) = tables.operations.peek(slot) else {
        return false;
    };
    let mut operands = operation.operands.as_slice().iter();
    operands.any(|value| has_definer(nodes, change.apply(*value).definer)) && !has_op(nodes, slot)
}

/// When each of `olds`, in order, has given way to the one of `news` in the same place: does an operation outside `nodes` use a value that one of them defines?
pub fn used_after(tables: &Tables, nodes: &[IRNode], olds: &[Value], news: &[Value]) -> bool
    ensures { result ≡ used_outside (replace_each (view tables.now) olds.now news.now) nodes.now }
{
    let change = Exchange { olds, news };
    (0..tables.operations.len()).any(|slot| uses_from_outside(tables, nodes, &change, slot))
}

/// Does an operation outside `nodes` use a value that one of them defines?
pub fn used_outside(tables: &Tables, nodes: &[IRNode]) -> bool
    ensures { result ≡ used_outside (view tables.now) nodes.now }
{
    used_after(tables, nodes, &[], &[])
}
