// The eight integer types as a column lists them: which number of the type a value states.
ghost use Rattle.std.specs.Prelude.{◌≡◌};
ghost use Rattle.serde_json.specs.View.{view};

use super::primitive::ColumnInt;
use serde_json::Value;

impl ColumnInt for i8 {
    ghost use Rattle.std.specs.Prelude.{pos};
    ghost use Rattle.coltypes.specs.declared.dtype.PType.TheVariants as ptype;
    ghost use Rattle.rowjson.specs.Columns.{signed_value};

    ghost number_in = { signed_value ptype.I8 };

    ghost zero = { pos 0 };

    #[tactic(auto, unfolding(crate::specs::Columns::signed_value))]
    fn number_in(value: &Value) -> Option<i8> {
        i8::try_from(value.as_i64()?).ok()
    }

    fn zero() -> i8 {
        0
    }
}

impl ColumnInt for i16 {
    ghost use Rattle.std.specs.Prelude.{pos};
    ghost use Rattle.coltypes.specs.declared.dtype.PType.TheVariants as ptype;
    ghost use Rattle.rowjson.specs.Columns.{signed_value};

    ghost number_in = { signed_value ptype.I16 };

    ghost zero = { pos 0 };

    #[tactic(auto, unfolding(crate::specs::Columns::signed_value))]
    fn number_in(value: &Value) -> Option<i16> {
        i16::try_from(value.as_i64()?).ok()
    }

    fn zero() -> i16 {
        0
    }
}

impl ColumnInt for i32 {
    ghost use Rattle.std.specs.Prelude.{pos};
    ghost use Rattle.coltypes.specs.declared.dtype.PType.TheVariants as ptype;
    ghost use Rattle.rowjson.specs.Columns.{signed_value};

    ghost number_in = { signed_value ptype.I32 };

    ghost zero = { pos 0 };

    #[tactic(auto, unfolding(crate::specs::Columns::signed_value))]
    fn number_in(value: &Value) -> Option<i32> {
        i32::try_from(value.as_i64()?).ok()
    }

    fn zero() -> i32 {
        0
    }
}

impl ColumnInt for i64 {
    ghost use Rattle.std.specs.Prelude.{pos};
    ghost use Rattle.coltypes.specs.declared.dtype.PType.TheVariants as ptype;
    ghost use Rattle.rowjson.specs.Columns.{signed_value};

    ghost number_in = { signed_value ptype.I64 };

    ghost zero = { pos 0 };

    #[tactic(auto, unfolding(crate::specs::Columns::signed_value))]
    fn number_in(value: &Value) -> Option<i64> {
        value.as_i64()
    }

    fn zero() -> i64 {
        0
    }
}

impl ColumnInt for u8 {
    ghost use Rattle.coltypes.specs.declared.dtype.PType.TheVariants as ptype;
    ghost use Rattle.rowjson.specs.Columns.{unsigned_value};

    ghost number_in = { unsigned_value ptype.U8 };

    ghost zero = { 0 };

    #[tactic(auto, unfolding(crate::specs::Columns::unsigned_value))]
    fn number_in(value: &Value) -> Option<u8> {
        u8::try_from(value.as_u64()?).ok()
    }

    fn zero() -> u8 {
        0
    }
}

impl ColumnInt for u16 {
    ghost use Rattle.coltypes.specs.declared.dtype.PType.TheVariants as ptype;
    ghost use Rattle.rowjson.specs.Columns.{unsigned_value};

    ghost number_in = { unsigned_value ptype.U16 };

    ghost zero = { 0 };

    #[tactic(auto, unfolding(crate::specs::Columns::unsigned_value))]
    fn number_in(value: &Value) -> Option<u16> {
        u16::try_from(value.as_u64()?).ok()
    }

    fn zero() -> u16 {
        0
    }
}

impl ColumnInt for u32 {
    ghost use Rattle.coltypes.specs.declared.dtype.PType.TheVariants as ptype;
    ghost use Rattle.rowjson.specs.Columns.{unsigned_value};

    ghost number_in = { unsigned_value ptype.U32 };

    ghost zero = { 0 };

    #[tactic(auto, unfolding(crate::specs::Columns::unsigned_value))]
    fn number_in(value: &Value) -> Option<u32> {
        u32::try_from(value.as_u64()?).ok()
    }

    fn zero() -> u32 {
        0
    }
}

impl ColumnInt for u64 {
    ghost use Rattle.coltypes.specs.declared.dtype.PType.TheVariants as ptype;
    ghost use Rattle.rowjson.specs.Columns.{unsigned_value};

    ghost number_in = { unsigned_value ptype.U64 };

    ghost zero = { 0 };

    #[tactic(auto, unfolding(crate::specs::Columns::unsigned_value))]
    fn number_in(value: &Value) -> Option<u64> {
        value.as_u64()
    }

    fn zero() -> u64 {
        0
    }
}
