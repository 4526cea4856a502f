// New memory that is written once: the answers of a closure at each index.
ghost use Rattle.std.specs.Prelude.{◌≡◌, length, IfOk};
ghost use Rattle.bitlane.specs.Bits.{CallableFrom, Collects};

use std::alloc::{AllocError, Global};

/// The answers of `f` at the indices below `len`, in room that is taken once and before the first call. Each place is
/// written once, by a loop that can be a vector loop.
pub(crate) fn collect_indices<T: Drop, F: FnMut(usize) -> T>(
    alloc: Global,
    len: usize,
    f: F,
) -> Result<Vec<T>, AllocError>
    requires { CallableFrom F.pre F.step f 0 len }
    ensures len { IfOk result (λ v. length v.items ≡ len) }
    ensures calls { IfOk result (λ v. (last : F) × Collects F.step f 0 v.items last) }
{
    let mut answers = Vec::with_capacity(alloc, len)?;
    answers.extend((0..len).map(f))?;
    Ok(answers)
}
