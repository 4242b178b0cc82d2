ghost use Rattle.std.specs.Prelude.{◌≡◌, ℕ, ◌+◌, ◌-◌, ◌<◌, ◌≤◌, true, cond, [], ◌∷◌, ◌++◌, length, is_some, MatchOption, nat_lt, slice_index_or, slice_set};
ghost use Rattle.std.specs.List.{AllZip, remove, slice_get};
ghost use Rattle.std.specs.Fn.{FnReturnsAt};
ghost use Rattle.row.specs.Items.{row_items, Retained};

use super::Row;
use std::mem;

impl<T: Copy, const N: usize> Row<T, N> {
    // Stays: this and the next, beside `Default` and `TryFrom`, for elements that have no default.
    /// No element; `fill` stands in the places that hold none.
    pub fn empty(fill: T) -> Row<T, N>
        ensures { row_items result ≡ [] }
    {
        Row {
            items: [fill; N],
            len: 0,
        }
    }

    /// The elements of `items`, where there are places for them; `fill` stands in those that hold none.
    pub fn from_slice(fill: T, items: &[T]) -> Option<Row<T, N>>
        ensures { MatchOption result (N < length items.now) (λ row. row_items row ≡ items.now) }
    {
        let len = items.len();
        if N < len {
            return None;
        }
        let mut all = [fill; N];
        all[..len].copy_from_slice(items);
        Some(Row { items: all, len })
    }

    pub fn len(&self) -> usize
        ensures value { result ≡ length (row_items self.now) }
        ensures bound { result ≤ N }
    {
        self.len
    }

    pub fn as_slice(&self) -> &[T]
        ensures { result.now ≡ row_items self.now }
    {
        &self.items[..self.len]
    }

    pub fn get(&self, i: usize) -> Option<T>
        ensures { result ≡ slice_get (row_items self.now) i }
    {
        self.as_slice().get(i).copied()
    }

    /// The element `i` becomes `x`; the result is what was there before.
    pub fn set(&mut self, i: usize, x: T) -> Option<T>
        ensures value { result ≡ slice_get (row_items self.old) i }
        ensures items { row_items self.new ≡ slice_set (row_items self.old) i x }
    {
        if self.len <= i {
            return None;
        }
        Some(mem::replace(&mut self.items[i], x))
    }

    pub fn push(&mut self, x: T)
        requires { length (row_items self.old) < N }
        ensures { row_items self.new ≡ row_items self.old ++ x ∷ [] }
    {
        self.items[self.len] = x;
        self.len += 1;
    }

    pub fn remove(&mut self, i: usize) -> Option<T>
        ensures value { MatchOption result (length (row_items self.old) ≤ i) (λ x. (i < length (row_items self.old)) × (x ≡ slice_index_or (row_items self.old) i x)) }
        ensures items { row_items self.new ≡ remove (row_items self.old) i }
    {
        if self.len <= i {
            return None;
        }
        let x = self.items[i];
        self.items.copy_within(i + 1..self.len, i);
        self.len -= 1;
        Some(x)
    }

    /// Each element becomes what `f` gives for it.
    pub fn update<F: Fn(T) -> T>(&mut self, f: F)
        requires { F.IsAlwaysCallable f }
        ensures { AllZip (F.post f) (row_items self.old) (row_items self.new) }
    {
        for item in &mut self.items[..self.len] {
            *item = f(*item);
        }
    }
    /// The elements for which `f` answers true stay, in their order.
    pub fn retain<F: Fn(&T) -> bool>(&mut self, f: F)
        requires { F.IsAlwaysCallable f }
        ensures { Retained (FnReturnsAt F.Fn f) (row_items self.old) (row_items self.new) }
    {
        // Stays: by places, since elements move down within the one array.
        let mut kept = 0;
        for i in 0..self.len {
            let x = self.items[i];
            if f(&x) {
                self.items[kept] = x;
                kept += 1;
            }
        }
        self.len = kept;
    }
}
