// Which array has one value for the whole batch, and the array below each mask. Masks leave the payload alone, so an
// element that reads the payload reads below them.
ghost use Rattle.std.specs.Prelude.{◌≡◌, is_some};
ghost use Rattle.std.specs.Option.{option_copied};
ghost use Rattle.rowelems.specs.Shown.{batch_value};
ghost use Rattle.rowelems.specs.Unmasked.{batch_constant, unmasked};

use colbase::ArrayRef;

/// The array that has one value for the whole batch: a constant array itself, the constant below a mask, or an extension
/// of a constant, which stays an extension. A mask over an extension of a constant is none.
pub fn batch_const(array: &ArrayRef) -> Option<&ArrayRef>
    ensures { option_copied result ≡ batch_constant array.now }
{
    if array.as_constant().is_some() {
        return Some(array);
    }
    if let Some(child) = array.masked_child() {
        return child.as_constant().map(|_| child);
    }
    let storage = array.ext_storage()?;
    storage.as_constant().map(|_| array)
}

/// Whether the array becomes one value: a batch constant that is not null, of a column that is not empty.
pub(crate) fn has_batch_value(array: &ArrayRef) -> bool
    ensures { result ≡ is_some (batch_value array.now) }
{
    if array.len() == 0 {
        return false;
    }
    match batch_const(array) {
        Some(constant) => constant.is_valid(0),
        None => false,
    }
}

/// The array below each mask.
pub(crate) fn below_masks(array: &ArrayRef) -> &ArrayRef
    ensures { result.now ≡ unmasked array.now }
{
    match array.masked_child() {
        Some(child) => below_masks(child),
        None => array,
    }
}
