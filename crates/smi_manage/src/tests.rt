use crate::Manage;
use handler_registry::Registry;
use smm_base::{HandlerType, NoMemory, Status};
use std::alloc::Global;
use std::test::Fail;

// The answer of a walk over as many handlers as there are statuses, each of which returns its own.
fn walked(alloc: Global, kind: HandlerType, statuses: &[Status]) -> Result<Status, NoMemory> {
    let mut registry = Registry::new(alloc)?;
    for _ in statuses {
        let _ = registry.register(kind, 0);
    }
    let mut walk = Manage::begin(kind, &registry);
    for status in statuses {
        if let Some(_) = walk.next(&registry) {
            walk.answer(*status);
        }
    }
    Ok(walk.end())
}

#[test]
fn walks(rt: HostRuntime) -> Result<(), Fail> {
    let alloc = rt.alloc();
    let root = HandlerType::Root;
    let guid = HandlerType::Typed(7);
    let pending = Status::InterruptPending;
    let quiesced = Status::SourceQuiesced;
    let answers = [
        walked(alloc, root, &[pending, quiesced, pending])?,
        walked(alloc, root, &[pending])?,
        walked(
            alloc,
            guid,
            &[Status::SourcePending, pending, Status::Success],
        )?,
        walked(alloc, guid, &[quiesced, Status::SourcePending])?,
        walked(alloc, guid, &[])?,
        walked(alloc, root, &[])?,
    ];
    let expected = [
        Status::Success,
        pending,
        pending,
        Status::Success,
        Status::NotFound,
        Status::NotFound,
    ];
    assert_eq!(rt; answers.as_slice(), expected.as_slice());
    Ok(())
}

#[test]
fn sixty_four_fit(rt: HostRuntime) -> Result<(), Fail> {
    let mut registry = Registry::new(rt.alloc())?;
    for _ in 0..64 {
        assert!(rt; registry.register(HandlerType::Root, 0).is_ok());
    }
    assert!(rt; registry.register(HandlerType::Root, 0).is_err());
    Ok(())
}
