ghost use Rattle.std.specs.Prelude.{◌≡◌, ◌≤◌, [], ◌∷◌, length, take};
ghost use Rattle.source.specs.Marks.{picked, matches, matching};
ghost use Rattle.files.specs.Contents.{bits};
ghost use Rattle.files.specs.Held.{columns_marks, cut};
ghost use Rattle.files.specs.Steps.{Unpacked, Copied};

use crate::columns::{COLUMNS_MAX, Columns, GIVEN_MAX};
use bounded::Bounded;
use source::Mark;
use source::values::count_inputs;

impl Columns {
    // One column.
    pub(crate) fn one(mark: Mark) -> Columns
        ensures { columns_marks result ≡ mark ∷ [] }
    {
        let mut marks = Bounded::new(mark);
        marks.push(mark);
        Columns { marks }
    }

    // The columns of these marks: refused if they are none or more than four, or more than three are given.
    pub(crate) fn of_marks(marks: &[Mark]) -> Option<Columns>
        ensures { Copied marks.now result }
    {
        let list = Bounded::from_slice(marks, Mark::Free)?;
        if marks.is_empty() || count_inputs(marks) > GIVEN_MAX {
            return None;
        }
        Some(Columns { marks: list })
    }

    // The columns of a number of marks: refused if it has another bit, or more than three.
    #[tactic(auto, using(crate::proofs::Packing::taken_other))]
    pub(crate) fn unpack(width: usize, packed: u32) -> Option<Columns>
        requires some { 1 ≤ width }
        requires four { width ≤ 4 }
        ensures { Unpacked width packed result }
    {
        let mut cells = [Mark::Free; COLUMNS_MAX];
        let marks = &mut cells[..width];
        let mut left = packed;
        for mark in marks.iter_mut() {
            *mark = if left % 2 == 1 {
                Mark::Given
            } else {
                Mark::Free
            };
            left /= 2;
        }
        if left != 0 {
            return None;
        }
        Columns::of_marks(marks)
    }

    // The marks, in column order.
    pub(crate) fn marks(&self) -> &[Mark]
        ensures { result.now ≡ columns_marks self.now }
    {
        self.marks.as_slice()
    }

    // How many columns there are.
    pub(crate) fn width(&self) -> usize
        ensures { result ≡ length (columns_marks self.now) }
    {
        self.marks.len()
    }

    // The marks as a number.
    pub(crate) fn pack(&self) -> u32
        ensures { result ≡ bits (columns_marks self.now) }
    {
        let mut packed = 0;
        for mark in self.marks().iter().rev() {
            packed = u32::from(*mark == Mark::Given) + 2 * packed;
        }
        packed
    }

    // The values of a row that stands in four cells.
    pub(crate) fn values<'a>(&self, row: &'a [u32; 4]) -> &'a [u32]
        ensures value { result.now ≡ take (length (columns_marks self.now)) row.now }
        ensures len { length result.now ≡ length (columns_marks self.now) }
    {
        &row[..self.width()]
    }

    // Whether two rows have the same inputs.
    fn same_inputs(&self, a: &[u32; 4], b: &[u32; 4]) -> bool
        ensures { result ≡ matches (columns_marks self.now) (picked (columns_marks self.now) b.now) a.now }
    {
        let mut columns = self.marks().iter().zip(a.iter().zip(b));
        columns.all(|(mark, (x, y))| *mark == Mark::Free || x == y)
    }

    // How many of the rows have this row's inputs.
    #[tactic(auto, using(crate::proofs::Matching::count_matching))]
    pub(crate) fn count_alike(&self, rows: &[[u32; 4]], row: &[u32; 4]) -> usize
        ensures { result ≡ length (matching (columns_marks self.now) (picked (columns_marks self.now) row.now) (cut (length (columns_marks self.now)) rows.now)) }
    {
        rows.iter()
            .filter(|other| self.same_inputs(*other, row))
            .count()
    }
}
