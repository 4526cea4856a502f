// The source of the plainest loop: two slices, read by index.
ghost use Rattle.std.specs.Prelude.{◌≡◌, length};

use bitlane::IndexedSource;

/// Two lists of one length, side by side.
#[derive(Drop)]
pub struct Pairs<'a> {
    xs: &'a [i64],
    ys: &'a [i64],
    ghost equal: { length xs.now ≡ length ys.now },
}

impl<'a> Pairs<'a> {
    pub fn new(xs: &'a [i64], ys: &'a [i64]) -> Pairs<'a>
        requires { length xs.now ≡ length ys.now }
        ensures { result.xs.now ≡ xs.now }
    {
        Pairs { xs, ys }
    }
}

impl<'a> IndexedSource for Pairs<'a> {
    ghost use Rattle.std.specs.Prelude.{◌≡◌, length, pos};
    ghost use Rattle.std.specs.List.{slice_index_or};

    type Item = (i64, i64);

    ghost count = { λ s. length s.xs.now };

    ghost item_at = { λ s i e. e ≡ (slice_index_or s.xs.now i (pos 0), slice_index_or s.ys.now i (pos 0)) };

    fn len(&self) -> usize {
        self.xs.len()
    }

    fn get(&self, index: usize) -> (i64, i64) {
        (self.xs[index], self.ys[index])
    }
}
