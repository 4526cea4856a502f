// Outputs: the layout of a finished column, which its clause leaves open, and views of rows at concrete types.
ghost use Rattle.std.specs.Prelude.{◌≡◌, length, slice_index_or};

use bitlane::IndexedSource;
use colbase::{ArrayRef, ExecutionCtx, NativeInt, Res};
use rowtypes::{
    FillDefault, OutputBuffer, OutputElement, Preinitialized, SliceRows, ViewLen, build_from,
};
use std::test::Fail;

/// A buffer of three places, of which two become a column.
fn finished<T: OutputElement>(values: &[T; 3], ctx: ExecutionCtx) -> Res<ArrayRef> {
    let mut buffer = T::with_capacity(3, ctx)?;
    let slots = buffer.slots();
    for i in 0..3 {
        slots[i] = values[i];
    }
    buffer.finish(2, ctx)
}

/// The bytes of a slice.
#[derive(Drop)]
struct Bytes<'a> {
    values: &'a [u8],
}

impl<'a> IndexedSource for Bytes<'a> {
    type Item = u8;

    ghost count = { λ s. length s.values.now };

    ghost item_at = { λ s i x. x ≡ slice_index_or s.values.now i 0 };

    fn len(&self) -> usize {
        self.values.len()
    }

    fn get(&self, index: usize) -> u8 {
        self.values[index]
    }
}

#[test]
fn numbers_become_a_list_of_numbers(rt: HostRuntime) -> Result<(), Fail> {
    let ctx = ExecutionCtx::new(rt.alloc());
    let array = finished(&[4i64, 5, 6], ctx)?;
    let values = i64::values_of(&array).ok_or("another layout")?;
    assert!(rt; values.as_slice() == [4, 5].as_slice());
    Ok(())
}

#[test]
fn truth_values_become_bits(rt: HostRuntime) -> Result<(), Fail> {
    let ctx = ExecutionCtx::new(rt.alloc());
    let array = finished(&[true, false, true], ctx)?;
    let bits = array.bits().ok_or("another layout")?;
    assert_eq!(rt; (bits.len(), bits.true_count()), (2, 1));
    Ok(())
}

#[test]
fn answers_become_bits(rt: HostRuntime) -> Result<(), Fail> {
    let ctx = ExecutionCtx::new(rt.alloc());
    let odd = build_from::<bool, _, _>(&Bytes { values: &[1, 2, 3] }, |x| x % 2 == 1, ctx)?;
    let bits = odd.bits().ok_or("another layout")?;
    assert_eq!(rt; (bits.len(), bits.true_count()), (3, 2));
    Ok(())
}

/// How many rows a view has, after each is set to the default.
fn cleared<V: ViewLen + FillDefault>(view: &mut V) -> usize
    requires { V.IsEven view.old }
{
    let rows = view.len();
    view.fill_default();
    rows
}

#[test]
fn a_slice_is_cleared(rt: HostRuntime) {
    let mut places = [3i8, 4, 5];
    let rows = cleared(&mut SliceRows(&mut places));
    assert_eq!(rt; rows, 3);
    assert!(rt; places.as_slice() == [0, 0, 0].as_slice());
}

#[test]
fn a_preinitialized_list_is_kept(rt: HostRuntime) -> Result<(), Fail> {
    let mut kept = Preinitialized(vec![in rt.alloc(); 1u8, 2]?);
    assert_eq!(rt; cleared(&mut kept), 2);
    assert!(rt; kept.0.as_slice() == [1, 2].as_slice());
    Ok(())
}
