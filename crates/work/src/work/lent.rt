//! The work with the memory that is lent to it.
ghost use Rattle.work.specs.Work.{Fits};

use super::Work;
use model::ids::{BlockId, OpId};

/// The work, the memory of its two queues, and how many operations were ever queued.
#[derive(Drop)]
pub struct Lent<'a> {
    pub work: &'a mut Work,
    pub entries: &'a mut [OpId],
    pub blocks: &'a mut [BlockId],
    pub queued: &'a mut u64,
    ghost fits: { Fits work.now entries.now blocks.now },
}
