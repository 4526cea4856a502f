// The eight integer types as elements: how a number becomes one of them.
use super::integer::ElementInt;

impl ElementInt for i8 {
    fn from_number(number: i128) -> i8 {
        number as i8
    }

    fn check(self) {}

    ghost cloned = { λ x y e. e };
}

impl ElementInt for i16 {
    fn from_number(number: i128) -> i16 {
        number as i16
    }

    fn check(self) {}

    ghost cloned = { λ x y e. e };
}

impl ElementInt for i32 {
    fn from_number(number: i128) -> i32 {
        number as i32
    }

    fn check(self) {}

    ghost cloned = { λ x y e. e };
}

impl ElementInt for i64 {
    fn from_number(number: i128) -> i64 {
        number as i64
    }

    fn check(self) {}

    ghost cloned = { λ x y e. e };
}

impl ElementInt for u8 {
    fn from_number(number: i128) -> u8 {
        number as u8
    }

    fn check(self) {}

    ghost cloned = { λ x y e. e };
}

impl ElementInt for u16 {
    fn from_number(number: i128) -> u16 {
        number as u16
    }

    fn check(self) {}

    ghost cloned = { λ x y e. e };
}

impl ElementInt for u32 {
    fn from_number(number: i128) -> u32 {
        number as u32
    }

    fn check(self) {}

    ghost cloned = { λ x y e. e };
}

impl ElementInt for u64 {
    fn from_number(number: i128) -> u64 {
        number as u64
    }

    fn check(self) {}

    ghost cloned = { λ x y e. e };
}
