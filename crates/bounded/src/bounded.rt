//! Room for a number of elements, on the heap.
ghost use Rattle.std.specs.Prelude.{◌≤◌, length, vec_capacity};

mod methods;

#[derive(Drop)]
pub struct Bounded<T, const N: usize> {
    // Stays: reserved when it is made, since nothing allocates afterwards.
    items: Vec<T>,
    ghost within: { length items.items ≤ N },
    ghost reserved: { N ≤ vec_capacity items },
}
