//! What is still to be done.
use queue::Queue;
use states::States;

pub mod batches;
pub mod handling;
pub mod lent;
pub mod meeting;
pub mod waiting;

/// The worklist, the blocks whose arguments are to be asked about, and the states of operations. The memory of the two queues is lent at
/// each call.
#[derive(Drop)]
pub struct Work {
    pub states: States,
    /// Operations.
    pub worklist: Queue,
    /// Blocks.
    pub pending: Queue,
    /// The argument of the first pending block that is asked about next.
    pub next_argument: u8,
}
