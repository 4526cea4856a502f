// Texts that a constant states. A reference has an address, which no contract can state of a constant, so contracts see the texts
// themselves.
ghost use Rattle.std.specs.Prelude.{◌≡◌, length, map};

use std::marker::Model;

/// A list of texts, which contracts see as the bytes of each.
#[derive(Drop)]
pub struct Texts(pub &'static [&'static str]);

impl Model for Texts {
    ghost use Rattle.std.specs.Prelude.{ℕ, List, map};

    ghost Value = { List (List ℕ) };

    ghost view = { λ s. map (λ text. text.now) s.0.now };
}

impl Texts {
    pub fn list(self) -> &'static [&'static str]
        ensures texts { map (λ text. text.now) result.now ≡ self }
        ensures as_many { length result.now ≡ length self }
    {
        self.0
    }
}
