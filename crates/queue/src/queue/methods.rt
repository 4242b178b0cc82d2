//! The calls. Those that are lent the memory are lent the same at each, and need that the queue lies within it.
ghost use Rattle.std.specs.Prelude.{◌≡◌, ◌+◌, ◌-◌, [], ◌∷◌, ◌++◌, length, is_some, is_ok, OnOk, OnErr, ◌==◌, nat_lt};
ghost use Rattle.std.specs.Option.{option_to_list};
ghost use Rattle.std.specs.List.{slice_get};
ghost use Rattle.queue.specs.Contents.{contents, Within};

use super::{Full, Queue};

// Stays: a rule of the project, a ring over a slice lent at each call; a handle over both would only carry `Within`.
impl Queue {
    pub fn new() -> Queue
        ensures front { result.front ≡ 0 }
        ensures count { result.count ≡ 0 }
    {
        Queue::default()
    }

    /// Nothing is left in it, whatever its memory.
    pub fn clear(&mut self)
        ensures front { self.new.front ≡ 0 }
        ensures count { self.new.count ≡ 0 }
    {
        *self = Queue::new();
    }

    pub fn len(&self) -> usize
        ensures { result ≡ self.now.count }
    {
        self.count
    }

    pub fn is_empty(&self) -> bool
        ensures { result ≡ (self.now.count == 0) }
    {
        self.count == 0
    }

    /// The first element, which stays.
    pub fn front<T: Copy>(&self, memory: &[T]) -> Option<T>
        requires { Within self.now memory.now }
        ensures test { is_some result ≡ nat_lt 0 self.now.count }
        ensures value { result ≡ slice_get (contents self.now memory.now) 0 }
    {
        if self.count == 0 {
            None
        } else {
            Some(memory[self.front])
        }
    }

    /// Refused where the memory is full, and then nothing has changed.
    pub fn push_back<T: Copy>(&mut self, memory: &mut [T], x: T) -> Result<(), Full>
        requires { Within self.old memory.old }
        ensures within { Within self.new memory.new }
        ensures size { length memory.new ≡ length memory.old }
        ensures test { is_ok result ≡ nat_lt self.old.count (length memory.old) }
        ensures count { OnOk result (self.new.count ≡ self.old.count + 1) }
        ensures items { OnOk result (contents self.new memory.new ≡ contents self.old memory.old ++ x ∷ []) }
        ensures refused { OnErr result ((self.new ≡ self.old) × (memory.new ≡ memory.old)) }
    {
        if self.count >= memory.len() {
            return Err(Full);
        }
        let room = memory.len() - self.front;
        let back = if self.count < room {
            self.front + self.count
        } else {
            self.count - room
        };
        memory[back] = x;
        self.count += 1;
        Ok(())
    }

    /// Refused where the memory is full, and then nothing has changed.
    pub fn push_front<T: Copy>(&mut self, memory: &mut [T], x: T) -> Result<(), Full>
        requires { Within self.old memory.old }
        ensures within { Within self.new memory.new }
        ensures size { length memory.new ≡ length memory.old }
        ensures test { is_ok result ≡ nat_lt self.old.count (length memory.old) }
        ensures count { OnOk result (self.new.count ≡ self.old.count + 1) }
        ensures items { OnOk result (contents self.new memory.new ≡ x ∷ contents self.old memory.old) }
        ensures refused { OnErr result ((self.new ≡ self.old) × (memory.new ≡ memory.old)) }
    {
        if self.count >= memory.len() {
            return Err(Full);
        }
        let front = if self.front == 0 {
            memory.len() - 1
        } else {
            self.front - 1
        };
        memory[front] = x;
        self.front = front;
        self.count += 1;
        Ok(())
    }

    /// Takes the first element, if there is one.
    pub fn pop_front<T: Copy>(&mut self, memory: &[T]) -> Option<T>
        requires { Within self.old memory.now }
        ensures within { Within self.new memory.now }
        ensures test { is_some result ≡ nat_lt 0 self.old.count }
        ensures count { self.new.count ≡ self.old.count - 1 }
        ensures items { contents self.old memory.now ≡ option_to_list result ++ contents self.new memory.now }
    {
        let x = self.front(memory)?;
        self.front = if self.front + 1 == memory.len() {
            0
        } else {
            self.front + 1
        };
        self.count -= 1;
        Some(x)
    }
}
