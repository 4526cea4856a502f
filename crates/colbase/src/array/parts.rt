// The parts of a layout, lent. Each call is Some exactly for the layouts that have the part.
ghost use Rattle.std.specs.Prelude.{◌≡◌};
ghost use Rattle.std.specs.Option.{option_copied};
ghost use Rattle.colbase.specs.Parts.{bits_of, child_of, scalar_of, storage_of, values_of};

use super::{ArrayRef, Layout};
use bitlane::BitBuffer;
use coltypes::{PrimitiveValues, Scalar};

impl ArrayRef {
    /// The scalar of a constant array.
    pub fn as_constant(&self) -> Option<&Scalar>
        ensures { option_copied result ≡ scalar_of self.now }
    {
        match &self.inner.get().layout {
            Layout::Constant(scalar, _) => Some(scalar),
            _ => None,
        }
    }

    /// The child of a masked array.
    pub fn masked_child(&self) -> Option<&ArrayRef>
        ensures { option_copied result ≡ child_of self.now }
    {
        match &self.inner.get().layout {
            Layout::Masked(child, _) => Some(child),
            _ => None,
        }
    }

    /// The storage of an extension array.
    pub fn ext_storage(&self) -> Option<&ArrayRef>
        ensures { option_copied result ≡ storage_of self.now }
    {
        match &self.inner.get().layout {
            Layout::Extension(_, storage) => Some(storage),
            _ => None,
        }
    }

    /// The numbers of a primitive array.
    pub fn values(&self) -> Option<&PrimitiveValues>
        ensures { option_copied result ≡ values_of self.now }
    {
        match &self.inner.get().layout {
            Layout::Primitive(values, _) => Some(values),
            _ => None,
        }
    }

    /// The truth values of a boolean array.
    pub fn bits(&self) -> Option<&BitBuffer>
        ensures { option_copied result ≡ bits_of self.now }
    {
        match &self.inner.get().layout {
            Layout::Bool(bits, _) => Some(bits),
            _ => None,
        }
    }
}
