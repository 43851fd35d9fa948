ghost use Rattle.numbers.specs.Reading.{Groups, Stands, Found};

use crate::writing::GROUP;
use faults::{Fault, Refusal};

// The bit of a byte that says that another group follows, and so one more than the largest group.
const MORE: u8 = 128;

// How many groups a value can have.
const GROUPS_MAX: u8 = 5;

// Reads at most `left` groups from the start of the bytes.
fn read_groups(bytes: &[u8], left: u8) -> Option<(u32, usize)>
    ensures groups { Groups left bytes.now result }
{
    let behind = left.checked_sub(1)?;
    let (&first, rest) = bytes.split_first()?;
    if first < MORE {
        return Some((u32::from(first), 1));
    }
    let (value, count) = read_groups(rest, behind)?;
    if value == 0 {
        return None;
    }
    let above = value.checked_mul(GROUP)?;
    Some((u32::from(first % MORE) + above, count + 1))
}

// Looks for a number at a place.
fn find(bytes: &[u8], at: usize) -> Option<(u32, usize)>
    ensures stands { Stands bytes.now at result }
{
    read_groups(bytes.get(at..)?, GROUPS_MAX)
}

// Reads the number that stands at a place: its value, and how many bytes it took. Refused if no
// number stands there.
pub fn read(bytes: &[u8], at: usize) -> Result<(u32, usize), Fault>
    ensures found { Found bytes.now at result }
{
    find(bytes, at).ok_or(Fault::placed(Refusal::NumberForm, at))
}
