// Conjunctions of bit buffers, without a row function.
use bitlane::BitBuffer;
use std::alloc::{AllocError, Global};

/// How many values are true in the conjunctions of two bit buffers, each joined anew in each round.
pub fn joined_in_rounds(alloc: Global, rows: usize, rounds: usize) -> Result<usize, AllocError> {
    let thirds = BitBuffer::collect_bool_in(alloc, rows, |i| i % 3 == 0)?;
    let evens = BitBuffer::collect_bool_in(alloc, rows, |i| i % 2 == 0)?;
    let mut count = 0usize;
    for round in 0..rounds {
        let joined = thirds.and(alloc, &evens)?;
        let len = joined.len();
        if len > 0 && joined.value(round % len) {
            count = count.wrapping_add(1);
        }
    }
    Ok(count)
}
