//! A new driver.
ghost use Rattle.std.specs.Prelude.{IfOk};
ghost use Rattle.driver.specs.New.{IsNew};

use super::Driver;
use histories::Histories;
use queue::Queue;
use rewriter::{IRRewriter, Recorder};
use rules_next::interface::{Counts, IRStatus, Phase};
use states::States;
use std::alloc::{AllocError, Global};
use walkers::Nodes;
use work::Work;

impl Driver {
    /// A driver that has not begun. All memory is taken here.
    pub fn new(heap: Global) -> Result<Driver, AllocError>
        ensures { IfOk result IsNew }
    {
        let recorder = Recorder::new(heap)?;
        let rewriter = IRRewriter::new(heap, recorder)?;
        let nodes = Nodes::new(heap)?;
        let states = States::new(heap)?;
        let histories = Histories::new(heap)?;
        Ok(Driver {
            rewriter,
            nodes,
            work: Work {
                states,
                worklist: Queue::new(),
                pending: Queue::new(),
                next_argument: 0,
            },
            histories,
            counts: Counts::default(),
            steps: 0,
            phase: Phase::NeverBegun,
            status: IRStatus::Unchanged,
            entries: 0,
            blocks: 0,
        })
    }
}
