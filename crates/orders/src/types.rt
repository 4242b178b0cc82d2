//! Types as text.
use std::fmt;

/// Types as they end a line, each behind a space.
#[derive(Clone, Copy)]
pub struct Types<'a>(pub &'a [u32]);

impl<'a> fmt::Display for Types<'a> {
    fn fmt<W: fmt::Write>(&self, f: &mut fmt::Formatter<W>) -> fmt::Result {
        for each in self.0 {
            write!(f, " {each}")?;
        }
        Ok(())
    }
}
