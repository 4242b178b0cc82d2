//! What the driver keeps.
ghost use Rattle.std.specs.Prelude.{◌≡◌, ◌+◌, ◌-◌, ◌*◌, ◌^◌, ◌≤◌, length, if◌then◌else◌};
ghost use Rattle.rewriter.specs.Recorded.{recorded};
ghost use Rattle.rules_next.specs.Rules.{is_begun};
ghost use Rattle.driver.specs.Total.{total};

use histories::Histories;
use rewriter::{IRRewriter, Recorder};
use rules_next::interface::{Counts, IRStatus, Phase};
use walkers::Nodes;
use work::Work;

pub mod counting;
pub mod making;

/// A driver. The memory of its two queues is lent at each call, of the same lengths as when the conversion was begun.
#[derive(Drop)]
pub struct Driver {
    rewriter: IRRewriter<Recorder>,
    /// The nodes that a walk meets.
    nodes: Nodes,
    work: Work,
    histories: Histories,
    counts: Counts,
    /// Steps since the beginning.
    steps: u64,
    phase: Phase,
    /// Was a record made since the beginning?
    status: IRStatus,
    /// How many operations and blocks the memory has room for.
    entries: usize,
    blocks: usize,
    ghost worklist_front: { work.worklist.front ≤ entries - 1 },
    ghost worklist_count: { work.worklist.count ≤ entries },
    ghost pending_front: { work.pending.front ≤ blocks - 1 },
    ghost pending_count: { work.pending.count ≤ blocks },
    ghost short: { steps ≤ 2 ^ 40 },
    ghost few: { total counts ≤ 2048 * (steps + 1) },
    ghost clear: { (if is_begun phase then length (recorded rewriter.listener) else 0) ≡ 0 },
}
