//! The records of a rewriter that keeps them.
ghost use Rattle.std.specs.Prelude.{◌≡◌, []};
ghost use Rattle.rewriter.specs.Recorded.{recorded};

use crate::listener::Recorder;
use crate::rewriter::IRRewriter;

impl IRRewriter<Recorder> {
    /// Lets all records go. The insertion point stays.
    pub fn clear_records(&mut self)
        ensures records { recorded self.new.listener ≡ [] }
        ensures point { self.new.point ≡ self.old.point }
    {
        self.listener.clear();
    }
}
