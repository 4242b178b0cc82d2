//! A row of slots.
ghost use Rattle.std.specs.Prelude.{◌≡◌, ℕ, ◌+◌, ◌<◌, ◌≤◌, true, false, length, replicate, is_some, IfOk, vec_len, MatchOption, slice_set};
ghost use Rattle.slots.specs.Cells.{Free, Live, cell_of, cells, cell_at, found, under, is_free, is_live, frees, live_count, next_given, live_under, holds, retired, CellChanged, ChangedBy};
ghost use Rattle.std.specs.Option.{option_map};
ghost use Rattle.std.specs.Fn.{FnOnceReturnsAtMut};

use std::alloc::{AllocError, Global};

/// Free with the generation that it gives next, live with the one that it gave and what lives there, or spent.
#[derive(Clone, Copy)]
pub enum Slot<T> {
    Free(u32),
    Live(u32, T),
    Spent,
}

impl<T: Copy> Slot<T> {
    fn is_free(&self) -> bool
        ensures { result ≡ is_free (cell_of self.now) }
    {
        matches!(self, Slot::Free(_))
    }

    fn is_live(&self) -> bool
        ensures { result ≡ is_live (cell_of self.now) }
    {
        matches!(self, Slot::Live(..))
    }

    /// What lives here under just this generation.
    fn get(&self, generation: u32) -> Option<&T>
        ensures { option_map (λ x. x.now) result ≡ under (cell_of self.now) generation }
    {
        match self {
            Slot::Live(own, content) if *own == generation => Some(content),
            _ => None,
        }
    }

    /// What lives here, under whatever generation.
    fn content(&self) -> Option<&T>
        ensures { option_map (λ x. x.now) result ≡ holds (cell_of self.now) }
    {
        match self {
            Slot::Live(_, content) => Some(content),
            _ => None,
        }
    }

    /// Changes what lives here in its place; nothing where nothing does.
    pub fn change<F: FnOnce(&mut T)>(&mut self, f: F)
        requires { F.IsAlwaysCallable f }
        ensures { CellChanged (λ x y. FnOnceReturnsAtMut F.FnOnce f x tt y) (cell_of self.old) (cell_of self.new) }
    {
        if let Slot::Live(_, content) = self {
            f(content);
        }
    }

    /// What lives here goes. It is not read, so that a large record is not copied.
    fn release(&mut self)
        ensures { cell_of self.new ≡ retired (cell_of self.old) }
    {
        match *self {
            Slot::Live(own, _) if own < u32::MAX => *self = Slot::Free(own + 1),
            Slot::Live(..) => *self = Slot::Spent,
            _ => {}
        }
    }
}

#[derive(Drop)]
pub struct Table<T> {
    pub slots: Vec<Slot<T>>,
}

impl<T: Copy> Table<T> {
    /// `n` slots that were never used.
    pub fn new(heap: Global, n: usize) -> Result<Table<T>, AllocError>
        ensures { IfOk result (λ t. cells t ≡ replicate n (Free 0)) }
    {
        let slots = vec![in heap; Slot::Free(0); n]?;
        Ok(Table { slots })
    }

    /// How many slots there are.
    pub fn len(&self) -> usize
        ensures { result ≡ length (cells self.now) }
    {
        self.slots.len()
    }

    /// What lives in `slot` under `generation`, in its place.
    pub fn get(&self, slot: usize, generation: u32) -> Option<&T>
        ensures { option_map (λ x. x.now) result ≡ found (cells self.now) slot generation }
    {
        self.slots.get(slot)?.get(generation)
    }

    /// What lives in `slot`, under whatever generation.
    pub fn peek(&self, slot: usize) -> Option<&T>
        ensures { option_map (λ x. x.now) result ≡ holds (cell_at (cells self.now) slot) }
    {
        self.slots.get(slot)?.content()
    }

    /// Can `slot` be used?
    pub fn vacant(&self, slot: usize) -> bool
        ensures { result ≡ is_free (cell_at (cells self.now) slot) }
    {
        self.slots.get(slot).is_some_and(Slot::is_free)
    }

    // Stays: in each pair of free and live, of questions, generations and counts, the two are one line and ask for another variant.
    /// Does something live in `slot`?
    pub fn occupied(&self, slot: usize) -> bool
        ensures { result ≡ is_live (cell_at (cells self.now) slot) }
    {
        self.slots.get(slot).is_some_and(Slot::is_live)
    }

    /// The generation that `slot` gives next, if it gives one.
    pub fn next_generation(&self, slot: usize) -> Option<u32>
        ensures { result ≡ next_given (cell_at (cells self.now) slot) }
    {
        match self.slots.get(slot)? {
            Slot::Free(next) => Some(*next),
            _ => None,
        }
    }

    /// The generation under which something lives in `slot`, if something does.
    pub fn live_generation(&self, slot: usize) -> Option<u32>
        ensures { result ≡ live_under (cell_at (cells self.now) slot) }
    {
        match self.slots.get(slot)? {
            Slot::Live(own, _) => Some(*own),
            _ => None,
        }
    }

    /// A slot that can be used.
    pub fn free_slot(&self) -> Option<usize>
        ensures { MatchOption result (frees (cells self.now) ≡ 0) (λ s. is_free (cell_at (cells self.now) s) ≡ true) }
    {
        self.slots.iter().position(|slot| slot.is_free())
    }

    /// How many slots can be used.
    pub fn free_count(&self) -> usize
        ensures { result ≡ frees (cells self.now) }
    {
        self.slots
            .iter()
            .map(|slot| usize::from(slot.is_free()))
            .sum()
    }

    /// In how many slots something lives.
    pub fn live_count(&self) -> usize
        ensures { result ≡ live_count (cells self.now) }
    {
        self.slots
            .iter()
            .map(|slot| usize::from(slot.is_live()))
            .sum()
    }

    /// Changes what lives in `slot` in its place; nothing where nothing does.
    pub fn change<F: FnOnce(&mut T)>(&mut self, slot: usize, f: F)
        requires { F.IsAlwaysCallable f }
        ensures { ChangedBy (λ x y. FnOnceReturnsAtMut F.FnOnce f x tt y) slot (cells self.old) (cells self.new) }
    {
        // Stays: by a test and the place; through `get_mut` what the table holds afterwards stayed open.
        if slot < self.slots.len() {
            self.slots[slot].change(f);
        }
    }

    /// `x` lives in `slot` from now on, under the generation that is answered.
    pub fn occupy(&mut self, slot: usize, x: T) -> u32
        requires { is_free (cell_at (cells self.old) slot) ≡ true }
        ensures was { cell_at (cells self.old) slot ≡ Free result }
        ensures cells { cells self.new ≡ slice_set (cells self.old) slot (Live result x) }
    {
        let generation = self.next_generation(slot).unwrap();
        self.slots[slot] = Slot::Live(generation, x);
        generation
    }

    /// Nothing lives in `slot` any more.
    pub fn release(&mut self, slot: usize)
        ensures { cells self.new ≡ slice_set (cells self.old) slot (retired (cell_at (cells self.old) slot)) }
    {
        if slot < self.slots.len() {
            self.slots[slot].release();
        }
    }
}
