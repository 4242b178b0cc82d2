//! What a bounded list does.
ghost use Rattle.std.specs.Prelude.{◌≡◌, ◌<◌, ◌≤◌, [], ◌∷◌, ◌++◌, length, IfOk};
ghost use Rattle.bounded.specs.Items.{bounded_items};

use super::Bounded;
use std::alloc::{AllocError, Global};

impl<T: Copy, const N: usize> Bounded<T, N> {
    /// An empty list. Nothing is allocated after this.
    pub fn new(heap: Global) -> Result<Bounded<T, N>, AllocError>
        ensures { IfOk result (λ list. bounded_items list ≡ []) }
    {
        let items = Vec::with_capacity(heap, N)?;
        Ok(Bounded { items })
    }

    pub fn len(&self) -> usize
        ensures value { result ≡ length (bounded_items self.now) }
        ensures bound { result ≤ N }
    {
        self.items.len()
    }

    pub fn as_slice(&self) -> &[T]
        ensures { result.now ≡ bounded_items self.now }
    {
        self.items.as_slice()
    }

    pub fn clear(&mut self)
        ensures { bounded_items self.new ≡ [] }
    {
        self.items.clear();
    }

    /// Puts `x` at the end.
    pub fn push(&mut self, x: T)
        requires { length (bounded_items self.old) < N }
        ensures { bounded_items self.new ≡ bounded_items self.old ++ x ∷ [] }
    {
        self.items.push_reserved(x);
    }
}
