//! What the bench holds, as text.
use crate::bench::Bench;
use calls::events::RecorderEvent;
use model::ids::{IRNode, OpId, Value};
use model::points::OpInsertionPoint;
use orders::types::Types;
use std::alloc::AllocError;
use std::fmt::Write;

impl Bench<'_> {
    /// A node by its name; a region by its owner's.
    fn node_text(&self, node: IRNode) -> Result<String, AllocError> {
        match node {
            IRNode::Region(region) => match self.store.get_parent_op(region) {
                Some(op) => format!(in self.heap; "region of {}", self.name_of(op)),
                None => String::from_str(self.heap, "region"),
            },
            _ => String::from_str(self.heap, self.name_of(node)),
        }
    }

    fn value_text(&self, value: Value) -> Result<String, AllocError> {
        format!(in self.heap; "{}.{}", self.name_of(value.definer), value.index)
    }

    /// The nodes that were listed last.
    pub fn nodes_text(&self) -> Result<String, AllocError> {
        let mut text = String::new(self.heap);
        for node in self.nodes.as_slice() {
            write!(text, " {}", self.node_text(*node)?)?;
        }
        Ok(text)
    }

    pub fn maybe_text(&self, node: Option<IRNode>) -> Result<String, AllocError> {
        match node {
            Some(node) => self.node_text(node),
            None => String::from_str(self.heap, "none"),
        }
    }

    fn point_text(&self, point: OpInsertionPoint) -> Result<String, AllocError> {
        let (place, name) = match point {
            OpInsertionPoint::Unset => return String::from_str(self.heap, "unset"),
            OpInsertionPoint::AtBlockStart(block) => ("start", self.name_of(block)),
            OpInsertionPoint::AtBlockEnd(block) => ("end", self.name_of(block)),
            OpInsertionPoint::AfterOperation(op) => ("after", self.name_of(op)),
            OpInsertionPoint::BeforeOperation(op) => ("before", self.name_of(op)),
        };
        format!(in self.heap; "{place} {name}")
    }

    fn event_text(&self, event: RecorderEvent) -> Result<String, AllocError> {
        match event {
            RecorderEvent::InsertedOperation(op) => {
                format!(in self.heap; "inserted {}", self.name_of(op))
            }
            RecorderEvent::InsertedBlock(block) => {
                format!(in self.heap; "inserted block {}", self.name_of(block))
            }
            RecorderEvent::ErasedOperation(op) => {
                format!(in self.heap; "erased {}", self.name_of(op))
            }
            RecorderEvent::ErasedBlock(block) => {
                format!(in self.heap; "erased block {}", self.name_of(block))
            }
            RecorderEvent::ErasedRegion(_) => String::from_str(self.heap, "erased region"),
            RecorderEvent::ReplacedValueUses(old, from, new) => {
                let old = self.value_text(old)?;
                let new = self.value_text(new)?;
                format!(in self.heap; "replaced {old} of type {from} by {new}")
            }
            RecorderEvent::ValueTypeChanged(value, from, to) => {
                let value = self.value_text(value)?;
                format!(in self.heap; "type of {value} from {from} to {to}")
            }
            RecorderEvent::UnlinkedOperation(op, place) => {
                let place = self.point_text(place)?;
                format!(in self.heap; "unlinked {} from {place}", self.name_of(op))
            }
        }
    }

    /// The records, parted by commas.
    pub fn records_text(&self) -> Result<String, AllocError> {
        let mut text = String::new(self.heap);
        for event in self.rewriter.get_listener().events() {
            if !text.is_empty() {
                text.push_str(", ")?;
            }
            text.push_str(self.event_text(*event)?.as_str())?;
        }
        Ok(text)
    }

    /// An operation with its operands and types.
    pub fn op_text(&self, op: OpId) -> Result<String, AllocError> {
        let Some(kind) = self.store.kind(op) else {
            return String::from_str(self.heap, "not live");
        };
        let note = self.store.note(op).unwrap_or(0);
        let mut text = format!(in self.heap; "{kind} {note}")?;
        for operand in self.store.operands(op).unwrap_or(&[]) {
            write!(text, " {}", self.value_text(*operand)?)?;
        }
        let types = Types(self.store.result_types(op).unwrap_or(&[]));
        write!(text, " ->{types}")?;
        Ok(text)
    }

    fn push_node(&self, node: IRNode, text: &mut String) -> Result<(), AllocError> {
        match node {
            IRNode::Operation(op) => {
                text.push_str(self.op_text(op)?.as_str())?;
                if let Some(block) = self.store.get_parent_block(op) {
                    text.push_str(self.name_of(block))?;
                }
                if let Some(next) = self.store.get_next_operation(op) {
                    text.push_str(self.name_of(next))?;
                }
            }
            IRNode::BasicBlock(block) => {
                if let Some(next) = self.store.get_next_block(block) {
                    text.push_str(self.name_of(next))?;
                }
                let types = Types(self.store.argument_types(block).unwrap_or(&[]));
                write!(text, "{types}")?;
            }
            IRNode::Region(_) => {}
        }
        Ok(())
    }

    /// All that the store, the insertion point and the records hold of what has a name: to see that a refused call left it.
    pub fn snapshot(&self) -> Result<String, AllocError> {
        let mut text = self.records_text()?;
        write!(
            text,
            "{}",
            self.point_text(self.rewriter.get_insertion_point())?
        )?;
        for node in self.names.keys() {
            text.push_str(";")?;
            self.push_node(*node, &mut text)?;
        }
        Ok(text)
    }
}
