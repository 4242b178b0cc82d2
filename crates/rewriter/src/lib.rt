//! Changing a store: listeners, insertion points, and the calls that change.

#![tactic(auto)]

pub mod listener;
pub mod rewriter;

pub use listener::{DummyListener, Recorder, RewriteListener};
pub use rewriter::IRRewriter;
pub use rewriter::scoped::ScopedRewriter;
