//! The loops of this project for programs that measure them, which link this crate as a static library. `bench/README.md`
//! says how.
#![tactic(auto)]

ghost use Rattle.std.specs.Prelude.{◌≡◌, length};

mod batches;
mod bits;
mod checked;
mod pairs;
mod tuples;

use bitlane::map_into;
use pairs::Pairs;
use std::alloc::Global;

/// The sum of two numbers at each index, through `map_into`.
#[unsafe(no_mangle)]
pub extern "C" fn rowbench_map_into(xs: &[i64], ys: &[i64], out: &mut [i64])
    requires equal { length xs.now ≡ length ys.now }
    requires room { length out.old ≡ length xs.now }
{
    let pairs = Pairs::new(xs, ys);
    map_into(&pairs, out, |pair: (i64, i64)| pair.0.wrapping_add(pair.1));
}

/// How many values are true in the conjunctions of two bit buffers of `rows` values, each joined anew in each round.
#[unsafe(no_mangle)]
pub extern "C" fn rowbench_and(alloc: Global, rows: usize, rounds: usize) -> usize {
    match bits::joined_in_rounds(alloc, rows, rounds) {
        Ok(count) => count,
        Err(_) => 0,
    }
}

/// The last sum of two columns through a decoded tuple, the second of which is a constant or not, added anew in each round.
#[unsafe(no_mangle)]
pub extern "C" fn rowbench_map_rows(
    alloc: Global,
    rows: usize,
    rounds: usize,
    constant: bool,
) -> i64 {
    match tuples::added_in_rounds(alloc, rows, rounds, constant) {
        Ok(sum) => sum,
        Err(_) => 0,
    }
}

/// The total of one number of each answer of a row function that adds two columns of `rows` numbers, executed anew in each
/// round. With shape 0 every tenth row of the first column is null, with 1 of both; with 2 the second is a constant, with 3
/// both are, and 4 is as 2 by a prepared visit. With 5 about one row in ten of the first column is null, at pseudorandom
/// places, with 6 nine in ten, and in both the rows without a null run alone.
#[unsafe(no_mangle)]
pub extern "C" fn rowbench_execute_rows(
    alloc: Global,
    rows: usize,
    rounds: usize,
    shape: u8,
) -> i64 {
    match batches::executed_in_rounds(alloc, rows, rounds, shape) {
        Ok(total) => total,
        Err(_) => 0,
    }
}

/// As [`rowbench_execute_rows`], for functions whose failures are evidence. With shape 0 `checked_add` runs over two columns without nulls;
/// with 1 every tenth row of the first is null, over small numbers, and with 2 over the greatest number, whose sum fails. With 3
/// `rescale` runs over a column beside the constant scale 3.
#[unsafe(no_mangle)]
pub extern "C" fn rowbench_execute_checked(
    alloc: Global,
    rows: usize,
    rounds: usize,
    shape: u8,
) -> i64 {
    match checked::checked_in_rounds(alloc, rows, rounds, shape) {
        Ok(total) => total,
        Err(_) => 0,
    }
}

/// As [`rowbench_execute_checked`], for `truncate` over a column of seconds without nulls, to steps of 60.
#[unsafe(no_mangle)]
pub extern "C" fn rowbench_execute_truncate(alloc: Global, rows: usize, rounds: usize) -> i64 {
    match checked::truncated_in_rounds(alloc, rows, rounds) {
        Ok(total) => total,
        Err(_) => 0,
    }
}
