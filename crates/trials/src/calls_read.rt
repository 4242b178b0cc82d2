//! One line: a call, and what it answers.
use crate::bench::Bench;
use crate::words::number;
use model::ids::{IRNode, Value};
use model::refusal::Refusal;
use orders::call_error::CallError;
use std::alloc::AllocError;

impl<'a> Bench<'a> {
    fn make(&mut self, line: &'a str) -> Result<(), CallError> {
        let operands = self.values(line, 4)?;
        let types = self.types(line)?;
        let marks = self.marks(line)?;
        let mut words = line.split_whitespace().skip(1);
        let name = words.next().unwrap_or("");
        let kind = words.next().map_or(0, number) % 65536;
        let note = words.next().map_or(0, number);
        let op = self.rewriter.make_operation(
            &mut self.store,
            kind as u16,
            note,
            operands.as_slice(),
            types.as_slice(),
            marks.as_slice(),
        )?;
        self.call(name, op.into())?;
        Ok(())
    }

    fn create(&mut self, name: &'a str, line: &'a str) -> Result<(), CallError> {
        let point = self.block_point(line, 2);
        let types = self.types(line)?;
        let block = self
            .rewriter
            .create_block(&mut self.store, point, types.as_slice())?;
        self.call(name, block.into())?;
        Ok(())
    }

    fn erase(&mut self, name: &str) -> Result<(), Refusal> {
        match self.node(name) {
            IRNode::Operation(op) => self.rewriter.erase_operation(&mut self.store, op),
            IRNode::BasicBlock(block) => self.rewriter.erase_block(&mut self.store, block),
            IRNode::Region(region) => self.rewriter.erase_region(&mut self.store, region),
        }
    }

    /// Makes a call of the rewriter, and answers `ok`; any other word is for `read`.
    fn change(&mut self, line: &'a str) -> Result<String, CallError> {
        let mut words = line.split_whitespace();
        let call = words.next().unwrap_or("");
        let first = words.next().unwrap_or("");
        let second = words.next().unwrap_or("");
        // Stays: the first word of a line names its call; one match is the plainest table of them.
        match call {
            "make" => self.make(line)?,
            "block" => self.create(first, line)?,
            "point" => {
                let point = self.op_point(line, 1);
                self.rewriter.set_insertion_point(point);
            }
            "insert" => {
                let op = self.op(first);
                self.rewriter.insert_operation(&mut self.store, op)?;
            }
            "append" => {
                let op = self.op(first);
                self.rewriter.append_operation(&mut self.store, op)?;
            }
            "unlink" => {
                let op = self.op(first);
                self.rewriter.unlink_operation(&mut self.store, op)?;
            }
            "move" => {
                let op = self.op(first);
                let point = self.op_point(line, 2);
                self.rewriter.move_operation(&mut self.store, op, point)?;
            }
            "type" => {
                let value = self.value(first);
                self.rewriter
                    .set_value_type(&mut self.store, value, number(second))?;
            }
            "uses" => {
                let old = self.value(first);
                let new = self.value(second);
                self.rewriter
                    .replace_value_uses_with(&mut self.store, old, new)?;
            }
            "replace" => {
                let op = self.op(first);
                let new = self.op(second);
                self.rewriter.replace_operation(&mut self.store, op, new)?;
            }
            "values" => {
                let op = self.op(first);
                let values = self.values(line, 2)?;
                self.rewriter
                    .replace_operation_with_values(&mut self.store, op, values.as_slice())?;
            }
            "erase" => self.erase(first)?,
            question => return Ok(self.read(question, first, second)?),
        }
        Ok(String::from_str(self.heap, "ok")?)
    }

    /// Makes operations till the store refuses, and answers how many it took.
    fn fill(&mut self) -> Result<String, AllocError> {
        let made = (0..600)
            .filter(|_| self.store.make_operation(1, 0, &[], &[], &[]).is_ok())
            .count();
        format!(in self.heap; "{made} made")
    }

    /// Changes the type of a value to and fro so many times, and answers how often it was accepted.
    fn retype(&mut self, value: Value, times: u32) -> Result<String, AllocError> {
        let done = (0..times)
            .filter(|turn| {
                self.rewriter
                    .set_value_type(&mut self.store, value, 100 + turn % 2)
                    .is_ok()
            })
            .count();
        format!(in self.heap; "{done} accepted")
    }

    /// The nodes that were just listed, or why they were not.
    fn listed(&self, answer: Result<(), Refusal>) -> Result<String, AllocError> {
        match answer {
            Ok(()) => self.nodes_text(),
            Err(refusal) => format!(in self.heap; "refused {}", u16::from(refusal)),
        }
    }

    /// The places of a node.
    fn place(&self, question: &str, name: &str) -> Option<IRNode> {
        let op = self.op(name);
        let block = self.block(name);
        match question {
            "next" => self.store.get_next_operation(op).map(IRNode::from),
            "prev" => self.store.get_prev_operation(op).map(IRNode::from),
            "parent" => self.store.get_parent_block(op).map(IRNode::from),
            "first" => self.store.first_operation(block).map(IRNode::from),
            "last" => self.store.last_operation(block).map(IRNode::from),
            "next-block" => self.store.get_next_block(block).map(IRNode::from),
            "prev-block" => self.store.get_prev_block(block).map(IRNode::from),
            _ => None,
        }
    }

    /// Answers a question; `fill` and `retype` make a call many times, and answer how often it was accepted.
    fn read(&mut self, question: &str, name: &str, second: &str) -> Result<String, AllocError> {
        let op = self.op(name);
        match question {
            "walk" => {
                let answer = self.store.walk(op, &mut self.nodes);
                self.listed(answer)
            }
            "part" => {
                let node = self.node(name);
                let answer = self.store.list_part(node, &mut self.nodes);
                self.listed(answer)
            }
            "fill" => self.fill(),
            "retype" => self.retype(self.value(name), number(second)),
            "records" => self.records_text(),
            "show" => self.op_text(op),
            "typeof" => match self.store.value_type(self.value(name)) {
                Some(found) => format!(in self.heap; "{found}"),
                None => String::from_str(self.heap, "none"),
            },
            "generation" => format!(in self.heap; "{}", op.generation),
            _ => self.maybe_text(self.place(question, name)),
        }
    }

    /// Makes the call that the line tells, and answers what is to be printed of it: of a refused one its number, and whether all is as it was.
    pub fn run(&mut self, line: &'a str) -> Result<String, AllocError> {
        let before = self.snapshot()?;
        match self.change(line) {
            Ok(answer) => Ok(answer),
            Err(CallError::Memory(error)) => Err(error),
            Err(CallError::Refused(refusal)) => {
                let number = u16::from(refusal);
                if self.snapshot()? == before {
                    format!(in self.heap; "refused {number}, nothing changed")
                } else {
                    format!(in self.heap; "refused {number}, CHANGED")
                }
            }
        }
    }
}
