//! One line of an order.
use crate::reason::Reason;
use std::alloc::Global;

/// A value as a line names it: by the line of its operation and its place among the results, or by the order's own line and its place among the arguments of the block.
#[derive(Clone, Copy)]
pub struct Reference {
    pub line: usize,
    pub index: u8,
    /// The place of the word that names it.
    pub word: usize,
}

/// An operation as a line tells it.
#[derive(Drop)]
pub struct Line {
    pub kind: u16,
    pub note: u32,
    pub operands: Vec<Reference>,
    pub types: Vec<u32>,
}

/// Is there nothing on the line but space and a comment?
pub fn is_blank(text: &str) -> bool {
    text.split_whitespace()
        .next()
        .is_none_or(|word| word.starts_with("#"))
}

/// The value that `text`, the word at place `word`, names.
fn operand(word: usize, text: &str) -> Option<Reference> {
    let (line, index) = text.split_once(".")?;
    Some(Reference {
        line: line.parse().ok()?,
        index: index.parse().ok()?,
        word,
    })
}

/// Reads `KIND NOTE OPERAND .. -> TYPE ..`, up to a `#`.
pub fn read_line(heap: Global, text: &str) -> Result<Line, Reason> {
    let mut words = (1..)
        .zip(text.split_whitespace())
        .take_while(|(_, text)| !text.starts_with("#"));
    let (_, kind) = words.next().ok_or(Reason::NoKind)?;
    let kind = kind.parse().map_err(|_| Reason::BadKind)?;
    let (_, note) = words.next().ok_or(Reason::NoNote)?;
    let note = note.parse().map_err(|_| Reason::BadNote)?;
    let operands = words
        .by_ref()
        .take_while(|(_, text)| *text != "->")
        .map(|(word, text)| operand(word, text).ok_or(Reason::BadOperand(word)))
        .try_collect(heap)?;
    let types = words
        .map(|(word, text)| match text {
            "->" => Err(Reason::SecondArrow(word)),
            _ => text.parse().map_err(|_| Reason::BadType(word)),
        })
        .try_collect(heap)?;
    Ok(Line {
        kind,
        note,
        operands,
        types,
    })
}
