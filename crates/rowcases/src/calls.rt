// A counter that a callback raises through a shared borrow, so that a test sees the calls themselves and not only the count that
// is told of them.
use std::cell::Cell;

/// How often a callback was called, up to 2^64 - 1.
#[derive(Drop)]
pub struct Calls {
    count: Cell<u64>,
}

impl Calls {
    pub fn new() -> Calls {
        Calls {
            count: Cell::new(0),
        }
    }

    pub fn raise(&self) {
        self.count.set(self.count.get().saturating_add(1));
    }

    pub fn count(&self) -> u64 {
        self.count.get()
    }
}
