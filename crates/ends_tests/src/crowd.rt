ghost use Rattle.std.specs.Prelude.{◌≡◌, IfOk};
ghost use Rattle.ends_tests.specs.Crowds.{crowd};

use std::alloc::{AllocError, Global};

// A file with so many rows for the input 1: (1, 0), (1, 1) and so on.
pub fn crowd(heap: Global, rows: u8) -> Result<Vec<u8>, AllocError>
    ensures bytes { IfOk result (λ file. file.items ≡ crowd rows) }
{
    let mut bytes = vec![in heap; 2, 1, rows]?;
    for row in 0..rows {
        bytes.extend_from_slice(&[1, row])?;
    }
    Ok(bytes)
}
