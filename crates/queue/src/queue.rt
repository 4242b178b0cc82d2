//! Where the elements of a queue lie in its memory.
use std::error::Error;
use std::fmt;

mod methods;

/// `count` elements, the first at the place `front`, and past the last place of the memory the first place follows.
#[derive(Clone, Copy, Debug, PartialEq, Eq, Default)]
pub struct Queue {
    // Stays: two numbers over memory that is lent at each call.
    front: usize,
    count: usize,
}

/// The memory of a queue has no place left.
#[derive(Clone, Copy, Debug, PartialEq, Eq)]
pub struct Full;

impl fmt::Display for Full {
    ghost use Rattle.std.specs.Prelude.{Some, codes};

    ghost output = { λ _. Some (codes "the queue is full") };

    fn fmt<W: fmt::Write>(&self, f: &mut fmt::Formatter<W>) -> fmt::Result {
        f.write_str("the queue is full")
    }
}

impl Error for Full {}
