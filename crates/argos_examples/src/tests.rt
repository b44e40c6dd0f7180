use crate::toggle;
use std::test::Fail;

#[test]
fn builds_the_toggle(rt: HostRuntime) -> Result<(), Fail> {
    let module = toggle(rt.alloc())?;
    assert_eq!(rt; module.names.inputs.len(), 1);
    assert_eq!(rt; module.names.outputs.len(), 1);
    assert!(rt; module.locals.is_empty());
    Ok(())
}
