// Two views of rows: a slice that is written, and rows that hold their values before they are.

/// Rows in a slice that a loop writes.
#[derive(Drop)]
pub struct SliceRows<'a, T>(pub &'a mut [T]);

/// Rows that already hold what an unwritten row is to hold, so that nothing is filled.
#[derive(Drop)]
pub struct Preinitialized<R>(pub R);
