// The summary of a column: its rows, its null rows, and the sum of the others, which stays in range since each is small.
ghost use Rattle.std.specs.Prelude.{◌≡◌, ◌≤◌, ◌<◌, ◌+◌, ◌++◌, ◌+ℤ◌, ℕ, pos, true, length, if◌then◌else◌, FitsSigned, IfOk, IfSome, OnOk};
ghost use Rattle.std.specs.Int.{w64};
ghost use Rattle.coltypes.specs.Masks.{mask_bits};
ghost use Rattle.rowrun.specs.Generator.{IsSmall, marked_at, most_rows, nulls_of, summary_line, summary_text, total_of};

use colbase::Mask;
use std::alloc::{AllocError, Global};

/// Room for three lines, each with the longest number.
const ROOM: usize = 96;

/// What is counted and added up over the rows of a column.
#[derive(Clone, Copy, Debug)]
pub(super) struct Tally {
    nulls: usize,
    sum: i64,
}

impl Tally {
    /// One more row, which isn't null where it is marked.
    fn with(self, marked: bool, number: i64) -> Tally
        requires few { self.nulls < most_rows }
        requires fits { marked ≡ true → FitsSigned w64 (self.sum +ℤ number) }
        ensures nulls { result.nulls ≡ self.nulls + (if marked then 0 else 1) }
        ensures sum { result.sum ≡ self.sum +ℤ (if marked then number else pos 0) }
    {
        if marked {
            Tally {
                nulls: self.nulls,
                sum: self.sum + number,
            }
        } else {
            Tally {
                nulls: self.nulls + 1,
                sum: self.sum,
            }
        }
    }
}

/// Counts the rows that aren't marked, and adds up the others.
pub(super) fn add_up(numbers: &[i64], marks: &Mask) -> Tally
    requires counted { length (mask_bits marks.now) ≡ length numbers.now }
    requires few { length numbers.now ≤ most_rows }
    requires small { (i : ℕ) → i < length numbers.now → IfSome (marked_at numbers.now (mask_bits marks.now) i) IsSmall }
    ensures nulls { result.nulls ≡ nulls_of (marked_at numbers.now (mask_bits marks.now)) (length numbers.now) }
    ensures sum { result.sum ≡ total_of (marked_at numbers.now (mask_bits marks.now)) (length numbers.now) }
{
    let mut tally = Tally { nulls: 0, sum: 0 };
    for i in 0..numbers.len() {
        tally = tally.with(marks.value(i), numbers[i]);
    }
    tally
}

/// Appends a name and a number on a line.
fn push_line(out: &mut Vec<u8>, name: &str, number: &str) -> Result<(), AllocError>
    ensures { OnOk result (out.new.items ≡ out.old.items ++ summary_line name.now number.now) }
{
    out.extend_from_slice(name.as_bytes())?;
    out.extend_from_slice(number.as_bytes())?;
    out.push(b'\n')?;
    Ok(())
}

/// The three lines.
pub(super) fn text_of(alloc: Global, rows: usize, tally: Tally) -> Result<Vec<u8>, AllocError>
    ensures { IfOk result (λ v. v.items ≡ summary_text rows tally.nulls tally.sum) }
{
    let mut out = Vec::with_capacity(alloc, ROOM)?;
    let mut digits = itoa::Buffer::new();
    push_line(&mut out, "rows ", digits.format(rows))?;
    push_line(&mut out, "nulls ", digits.format(tally.nulls))?;
    push_line(&mut out, "sum ", digits.format(tally.sum))?;
    Ok(out)
}
