ghost use Rattle.std.specs.Prelude.{◌≡◌, ◌≤◌, IfOk, length, replicate};
ghost use Rattle.cpu_table.specs.Data.{data_of};
ghost use Rattle.serving_place.specs.Serving.{Free};
ghost use Rattle.serving_place.specs.Beginning.{registered_if, registrations_of, pool_at_first};

use crate::seat::Seat;
use cpu_table::{HandlerDef, Setup};
use handler_registry::Registry;
use smbase_reloc::pool_range;
use smm_base::{HandlerType, NoMemory};
use smram_pool::Pool;
use std::alloc::{AllocError, Global};

/// The handlers of the file that stand on a list from the start, registered in the file's order.
pub fn registered(alloc: Global, handlers: &[HandlerDef]) -> Result<Registry, NoMemory>
    requires { length handlers.now ≤ 64 }
    ensures { IfOk result (λ registry. registry ≡ registrations_of handlers.now) }
{
    let mut registry = Registry::new(alloc)?;
    for (place, handler) in handlers.iter().enumerate() {
        register_if(&mut registry, handler.kind, place as u16);
    }
    Ok(registry)
}

fn register_if(registry: &mut Registry, kind: Option<HandlerType>, handler: u16)
    ensures { registry.new ≡ registered_if kind handler registry.old }
{
    if let Some(kind) = kind {
        let _ = registry.register(kind, handler);
    }
}

/// The pool of a platform's layout, all of it free.
pub fn pool_of_platform(alloc: Global, setup: &Setup) -> Result<Pool, NoMemory>
    ensures { IfOk result (λ pool. pool ≡ pool_at_first (data_of setup.now)) }
{
    let range = pool_range(&setup.smram, setup.processors);
    Pool::new(alloc, range.start, range.pages)
}

/// A free seat for each of so many processors.
pub fn free_seats(alloc: Global, n: usize) -> Result<Vec<Seat>, AllocError>
    ensures { IfOk result (λ seats. seats.items ≡ replicate n Free) }
{
    let mut seats = Vec::new(alloc);
    seats.resize(n, Seat::Free)?;
    Ok(seats)
}
