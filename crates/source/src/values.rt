ghost use Rattle.std.specs.Prelude.{◌≡◌};
ghost use Rattle.source.specs.Rows.{same, before};
ghost use Rattle.source.specs.Marks.{inputs_of, matches, same_marks};

use crate::mark::Mark;

// The next three are operators: each stands here once with a clause in the words of specs/, so that
// callers need no lemma on what the operator decides.

// Whether two lists of values are equal.
pub fn same_values(a: &[u32], b: &[u32]) -> bool
    ensures value { result ≡ same a.now b.now }
{
    a == b
}

// Whether a row comes before another, column by column.
pub fn comes_before(a: &[u32], b: &[u32]) -> bool
    ensures value { result ≡ before a.now b.now }
{
    a < b
}

// Whether two lists of marks are equal.
pub fn same_marks(marks: &[Mark], others: &[Mark]) -> bool
    ensures value { result ≡ same_marks marks.now others.now }
{
    marks == others
}

// How many inputs a call takes under these marks.
pub fn count_inputs(marks: &[Mark]) -> usize
    ensures value { result ≡ inputs_of marks.now }
{
    marks.iter().map(|mark| usize::from(mark.is_given())).sum()
}

// Whether a row holds the inputs in its given columns. As a chain of `filter` and `map` that ends in `eq`
// it was tried, and the proof did not close.
pub fn holds_inputs(marks: &[Mark], inputs: &[u32], row: &[u32]) -> bool
    ensures value { result ≡ matches marks.now inputs.now row.now }
{
    let mut left = inputs;
    for (mark, value) in marks.iter().zip(row) {
        if mark.is_given() {
            let Some((input, rest)) = left.split_first() else {
                return false;
            };
            if input != value {
                return false;
            }
            left = rest;
        }
    }
    left.is_empty()
}
