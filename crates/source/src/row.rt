use std::fmt;

// The values of a row, or the marks, places or numbers of some list, as they stand in a record: each with
// a space before it.
#[derive(Clone, Copy)]
pub struct Row<'a, T>(pub &'a [T]);

impl<'a, T: fmt::Display> fmt::Display for Row<'a, T> {
    fn fmt<W: fmt::Write>(&self, f: &mut fmt::Formatter<W>) -> fmt::Result {
        for value in self.0 {
            write!(f, " {value}")?;
        }
        Ok(())
    }
}
