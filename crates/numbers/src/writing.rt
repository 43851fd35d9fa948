ghost use Rattle.std.specs.Prelude.{◌≡◌, ◌≤◌, ◌++◌, length, drop};
ghost use Rattle.numbers.specs.Forms.{encode};
ghost use Rattle.numbers.specs.Writing.{Written};

use faults::{Fault, Refusal};

// How many values one group has.
pub(crate) const GROUP: u32 = 128;

// How many bytes a number takes.
#[tactic(auto, using(crate::proofs::Encoding::encode_one, crate::proofs::Encoding::encode_long, crate::proofs::Encoding::encode_few))]
pub fn size(value: u32) -> usize
    ensures long { result ≡ length (encode value) }
    ensures few { result ≤ 5 }
{
    if value < GROUP {
        return 1;
    }
    1 + size(value / GROUP)
}

// Writes a number to the start of memory that has room for it.
#[tactic(auto, using(crate::proofs::Encoding::encode_one, crate::proofs::Encoding::encode_long))]
fn put_groups(memory: &mut [u8], value: u32)
    requires { length (encode value) ≤ length memory.old }
    ensures { memory.new ≡ encode value ++ drop (length (encode value)) memory.old }
{
    if let Some((first, rest)) = memory.split_first_mut() {
        if value < GROUP {
            *first = value as u8; // a group: `try_from` would add a refusal that never comes
        } else {
            *first = (GROUP + value % GROUP) as u8;
            put_groups(rest, value / GROUP);
        }
    }
}

// Writes a number at a place, and returns how many bytes it took. Refused if it does not fit.
pub fn write(memory: &mut [u8], at: usize, value: u32) -> Result<usize, Fault>
    ensures written { Written memory.old memory.new at value result }
{
    let needed = size(value);
    if memory.get(at..).is_none_or(|room| room.len() < needed) {
        return Err(Fault::bare(Refusal::MemoryTooShort));
    }
    put_groups(&mut memory[at..], value);
    Ok(needed)
}
