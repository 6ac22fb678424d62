ghost use Rattle.std.specs.Prelude.{◌≡◌, IfOk};

use crate::handlers::{HandlerDef, ProcedureDef};
use crate::items::Items;
use crate::setup::CauseAt;
use crate::waves::Wave;
use std::alloc::AllocError;

// Equal waves.
pub(crate) fn copied_waves(waves: &Items<Wave>) -> Result<Items<Wave>, AllocError>
    ensures { IfOk result (λ copy. copy ≡ waves.now) }
{
    let copy = waves.clone()?;
    Ok(copy)
}

// Equal handlers.
pub(crate) fn copied_handlers(handlers: &Items<HandlerDef>) -> Result<Items<HandlerDef>, AllocError>
    ensures { IfOk result (λ copy. copy ≡ handlers.now) }
{
    let copy = handlers.clone()?;
    Ok(copy)
}

// Equal procedures.
pub(crate) fn copied_procedures(
    procedures: &Items<ProcedureDef>,
) -> Result<Items<ProcedureDef>, AllocError>
    ensures { IfOk result (λ copy. copy ≡ procedures.now) }
{
    let copy = procedures.clone()?;
    Ok(copy)
}

// Equal causes.
pub(crate) fn copied_causes(causes: &Items<CauseAt>) -> Result<Items<CauseAt>, AllocError>
    ensures { IfOk result (λ copy. copy ≡ causes.now) }
{
    let copy = causes.clone()?;
    Ok(copy)
}
