// The layouts as types, to name one in generic code.
ghost use Rattle.std.specs.Prelude.{◌≡◌};

use crate::array::ArrayRef;

/// A layout, as a type.
pub trait VTable {
    ghost use Rattle.std.specs.Prelude.{Bool};
    ghost use Rattle.colbase.specs.Arrays.{Array};

    // Whether an array has this layout.
    ghost has_layout: { Array → Bool };

    /// Whether the array has this layout.
    fn is(array: &ArrayRef) -> bool
        ensures { result ≡ has_layout array.now };
}

/// The layout of [`crate::ConstantArray`].
#[derive(Clone, Copy)]
pub struct Constant;

impl VTable for Constant {
    ghost use Rattle.colbase.specs.Layouts.{is_constant};

    ghost has_layout = { is_constant };

    fn is(array: &ArrayRef) -> bool {
        array.as_constant().is_some()
    }
}

/// The layout of [`crate::MaskedArray`].
#[derive(Clone, Copy)]
pub struct Masked;

impl VTable for Masked {
    ghost use Rattle.colbase.specs.Layouts.{is_masked};

    ghost has_layout = { is_masked };

    fn is(array: &ArrayRef) -> bool {
        array.masked_child().is_some()
    }
}

/// The layout of [`crate::ExtensionArray`].
#[derive(Clone, Copy)]
pub struct Extension;

impl VTable for Extension {
    ghost use Rattle.colbase.specs.Layouts.{is_extension};

    ghost has_layout = { is_extension };

    fn is(array: &ArrayRef) -> bool {
        array.ext_storage().is_some()
    }
}

/// The layout of [`crate::PrimitiveArray`].
#[derive(Clone, Copy)]
pub struct Primitive;

impl VTable for Primitive {
    ghost use Rattle.colbase.specs.Layouts.{is_primitive};

    ghost has_layout = { is_primitive };

    fn is(array: &ArrayRef) -> bool {
        array.values().is_some()
    }
}

/// The layout of [`crate::BoolArray`].
#[derive(Clone, Copy)]
pub struct Bool;

impl VTable for Bool {
    ghost use Rattle.colbase.specs.Layouts.{is_bool};

    ghost has_layout = { is_bool };

    fn is(array: &ArrayRef) -> bool {
        array.bits().is_some()
    }
}
