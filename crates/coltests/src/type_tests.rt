// Types: what takes memory, and the options of a function that has none.
use colbase::{
    DType, EmptyOptions, ExecutionCtx, ExtDType, Name, Nullability, PType, Res, TimeUnit,
};
use std::test::Fail;

fn seconds(nullability: Nullability, ctx: ExecutionCtx) -> Res<DType> {
    let storage = DType::Primitive(PType::I64, nullability);
    let unit = Some(TimeUnit::Seconds);
    let ext = ExtDType::try_new("vortex.timestamp", unit, None, storage, ctx)?;
    Ok(DType::Extension(ext))
}

#[test]
fn a_type_made_nullable(rt: HostRuntime) -> Result<(), Fail> {
    let ctx = ExecutionCtx::new(rt.alloc());
    let time = seconds(Nullability::NonNullable, ctx)?;
    let made = time.with_nullability(Nullability::Nullable, ctx)?;
    assert!(rt; made == seconds(Nullability::Nullable, ctx)? && made != time);
    Ok(())
}

#[test]
fn a_name(rt: HostRuntime) -> Result<(), Fail> {
    let ctx = ExecutionCtx::new(rt.alloc());
    let name = Name::try_new("vortex.timestamp", ctx)?;
    assert!(rt; name.as_bytes() == b"vortex.timestamp".as_slice());
    Ok(())
}

#[test]
fn no_options(rt: HostRuntime) -> Result<(), Fail> {
    assert_eq!(rt; format!(in rt.alloc(); "{EmptyOptions}")?.as_str(), "");
    Ok(())
}
