// The eight integer types as outputs: each is zero by default, and its clones are the value itself.
use super::integers::OutputInt;

impl OutputInt for i8 {
    ghost use Rattle.std.specs.Prelude.{pos};

    ghost zero = { pos 0 };

    ghost default_is_zero = { λ x e. e };

    ghost cloned = { λ x y e. e };
}

impl OutputInt for i16 {
    ghost use Rattle.std.specs.Prelude.{pos};

    ghost zero = { pos 0 };

    ghost default_is_zero = { λ x e. e };

    ghost cloned = { λ x y e. e };
}

impl OutputInt for i32 {
    ghost use Rattle.std.specs.Prelude.{pos};

    ghost zero = { pos 0 };

    ghost default_is_zero = { λ x e. e };

    ghost cloned = { λ x y e. e };
}

impl OutputInt for i64 {
    ghost use Rattle.std.specs.Prelude.{pos};

    ghost zero = { pos 0 };

    ghost default_is_zero = { λ x e. e };

    ghost cloned = { λ x y e. e };
}

impl OutputInt for u8 {
    ghost zero = { 0 };

    ghost default_is_zero = { λ x e. e };

    ghost cloned = { λ x y e. e };
}

impl OutputInt for u16 {
    ghost zero = { 0 };

    ghost default_is_zero = { λ x e. e };

    ghost cloned = { λ x y e. e };
}

impl OutputInt for u32 {
    ghost zero = { 0 };

    ghost default_is_zero = { λ x e. e };

    ghost cloned = { λ x y e. e };
}

impl OutputInt for u64 {
    ghost zero = { 0 };

    ghost default_is_zero = { λ x e. e };

    ghost cloned = { λ x y e. e };
}
