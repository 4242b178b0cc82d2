//! A store: its tables, and what holds of them.
ghost use Rattle.std.specs.Prelude.{◌≡◌};
ghost use Rattle.tables.specs.View.{Good};

use tables::tables::Tables;

#[derive(Drop)]
pub struct Store {
    // Stays: the calls that make, put and change say `Later` each, since it speaks of the store before and after, and no field can.
    tables: Tables,
    ghost good: { ∥ Good tables ∥₁ },
}

pub mod changing;
pub mod erasures;
pub mod laws;
pub mod linking;
pub mod making;
pub mod moving;
pub mod reading;
pub mod surroundings;
pub mod walking;
