// What the loops read: items by their index, whatever lends them.
ghost use Rattle.std.specs.Prelude.{◌≡◌, ◌<◌, ℕ};

/// Items that are read by their index.
pub trait IndexedSource {
    /// What is read at an index.
    type Item: Drop;

    // How many items there are.
    ghost count: { Self → ℕ };

    // An item that may be read at an index.
    ghost item_at: { Self → ℕ → Self.Item → Type 0 };

    /// How many items there are.
    fn len(&self) -> usize
        ensures { result ≡ count self.now };

    /// The item at an index. A loop calls it once for each row, so it copies or borrows and takes no memory.
    fn get(&self, index: usize) -> Self::Item
        requires { index < count self.now }
        ensures { item_at self.now index result };
}
