ghost use Rattle.std.specs.Prelude.{◌≡◌, ◌+◌, ◌↔◌, IsTrue, IsErr, IfOk, OnOk, OnErr};
ghost use Rattle.std.specs.Prelude.{position, false, IfNone, All};
ghost use Rattle.std.specs.List.{find};
ghost use Rattle.std.specs.Option.{option_map_or};
ghost use Rattle.slab.specs.Slab.{get};
ghost use Rattle.slab_order.specs.Order.{values_at};
ghost use Rattle.handler_registry.specs.Registrations.{is_same_list, has_serial, is_on_after, no_registrations, is_live, is_full, registered, unregistered, handler_at, next_of, IsRegistered};

use crate::registration::Registration;
use slab::Slab;
use smm_base::{HandlerType, NoMemory};
use std::alloc::Global;
use std::fmt;
use std::marker::Model;

/// The most registrations that are live at once.
pub const MOST_LIVE: usize = 64;

/// 64 registrations are live, or each serial number was given.
#[derive(Clone, Copy, Debug, PartialEq, Eq)]
pub struct Full;

/// No live registration has the serial number.
#[derive(Clone, Copy, Debug, PartialEq, Eq)]
pub struct Unknown;

/// Writes `full`.
impl fmt::Display for Full {
    ghost use Rattle.std.specs.Prelude.{Some, codes};

    ghost output = { λ _. Some (codes "full") };

    fn fmt<W: fmt::Write>(&self, f: &mut fmt::Formatter<W>) -> fmt::Result {
        f.write_str("full")
    }
}

/// Writes `unknown`.
impl fmt::Display for Unknown {
    ghost use Rattle.std.specs.Prelude.{Some, codes};

    ghost output = { λ _. Some (codes "unknown") };

    fn fmt<W: fmt::Write>(&self, f: &mut fmt::Formatter<W>) -> fmt::Result {
        f.write_str("unknown")
    }
}

fn on_same_list(a: HandlerType, b: HandlerType) -> bool
    ensures { result ≡ is_same_list a b }
{
    match (a, b) {
        (HandlerType::Root, HandlerType::Root) => true,
        (HandlerType::Typed(a), HandlerType::Typed(b)) => a == b,
        _ => false,
    }
}

/// The handlers that are registered, each on its list, in the order of registration.
#[derive(Drop)]
pub struct Registry {
    registrations: Slab<Registration>,
    // The keys of the registrations by rising serial number.
    order: Vec<usize>,
    // The last serial number given, or 0.
    last: u32,
}

impl Model for Registry {
    ghost use Rattle.std.specs.Prelude.{vec_capacity};
    ghost use Rattle.handler_registry.specs.Registrations.{Registrations};
    ghost use Rattle.slab_order.specs.Order.{values_at};
    ghost use Rattle.handler_registry.specs.Kept.{IsKept};

    ghost Value = { Registrations };

    ghost view = { λ r. record { live = values_at r.registrations r.order.items; last = r.last } };

    ghost invariant = { λ r. IsKept r.registrations r.order.items (vec_capacity r.order) r.last };
}

impl Registry {
    /// An empty registry with room for 64 registrations. Its other calls take no memory.
    pub fn new(alloc: Global) -> Result<Registry, NoMemory>
        ensures empty { IfOk result (λ registry. registry ≡ no_registrations) }
    {
        let registrations = Slab::with_capacity(alloc, MOST_LIVE)?;
        let order = Vec::with_capacity(alloc, MOST_LIVE)?;
        Ok(Registry {
            registrations,
            order,
            last: 0,
        })
    }

    /// 64 registrations are live, or each serial number was given.
    pub fn is_full(&self) -> bool
        ensures { result ≡ is_full self.now }
    {
        self.order.len() == MOST_LIVE || self.last == u32::MAX
    }

    /// Registers the handler at this place as the last of its list, under the next serial number,
    /// which is the answer: 1 at first. `Full` exactly where 64 are live or 4,294,967,295 were
    /// registered so far; then nothing changes.
    pub fn register(&mut self, kind: HandlerType, handler: u16) -> Result<u32, Full>
        ensures serial { IfOk result (λ serial. serial ≡ self.old.last + 1) }
        ensures registered { OnOk result (self.new ≡ registered kind handler self.old) }
        ensures full { IsErr result ↔ IsTrue (is_full self.old) }
        ensures refused { OnErr result (self.new ≡ self.old) }
    {
        if self.is_full() {
            return Err(Full);
        }
        let serial = self.last + 1;
        let key = self.registrations.insert_reserved(Registration {
            serial,
            kind,
            handler,
        });
        self.order.push_reserved(key);
        self.last = serial;
        Ok(serial)
    }

    /// Takes the registration with this serial number out. It is not called any more, and its
    /// serial number is not given again. `Unknown` exactly where no live registration has it; then
    /// nothing changes.
    pub fn unregister(&mut self, serial: u32) -> Result<(), Unknown>
        ensures unregistered { OnOk result (self.new ≡ unregistered serial self.old) }
        ensures known { OnOk result (IsTrue (is_live serial self.old)) }
        ensures unknown { OnErr result (is_live serial self.old ≡ false) }
        ensures refused { OnErr result (self.new ≡ self.old) }
    {
        let Some(place) = place_of(&self.registrations, self.order.as_slice(), serial) else {
            return Err(Unknown);
        };
        let key = self.order.remove(place);
        self.registrations.remove(key);
        Ok(())
    }

    /// The least live serial number of this list above `after`. None where there is none.
    pub fn next(&self, kind: HandlerType, after: u32) -> Option<u32>
        ensures { result ≡ next_of kind after self.now }
    {
        let key = key_after(&self.registrations, self.order.as_slice(), kind, after)?;
        self.registrations.get(key).map(|r| r.serial)
    }

    /// The handler of the live registration with this serial number. None where there is none.
    pub fn handler_of(&self, serial: u32) -> Option<u16>
        ensures { result ≡ handler_at serial self.now }
    {
        let key = key_of(&self.registrations, self.order.as_slice(), serial)?;
        self.registrations.get(key).map(|r| r.handler)
    }

    /// The last serial number given, or 0.
    pub fn last(&self) -> u32
        ensures value { result ≡ self.now.last }
        ensures kept { IsRegistered self.now }
    {
        let _ = &self.registrations;
        self.last
    }
}

// The place in the order of the registration with this serial number.
fn place_of(slab: &Slab<Registration>, order: &[usize], serial: u32) -> Option<usize>
    ensures place { result ≡ position (λ key. option_map_or (has_serial serial) (get slab.now key) false) order.now }
    ensures absent { IfNone result (All (λ key. option_map_or (has_serial serial) (get slab.now key) false ≡ false) order.now) }
{
    order
        .iter()
        .position(|key| slab.get(*key).is_some_and(|r| r.serial == serial))
}

// The key of the registration with this serial number.
fn key_of(slab: &Slab<Registration>, order: &[usize], serial: u32) -> Option<usize>
    ensures { result ≡ find (λ key. option_map_or (has_serial serial) (get slab.now key) false) order.now }
{
    order
        .iter()
        .copied()
        .find(|key| slab.get(*key).is_some_and(|r| r.serial == serial))
}

// The key of the first registration of this list above this serial number.
fn key_after(
    slab: &Slab<Registration>,
    order: &[usize],
    kind: HandlerType,
    after: u32,
) -> Option<usize>
    ensures { result ≡ find (λ key. option_map_or (is_on_after kind after) (get slab.now key) false) order.now }
{
    order.iter().copied().find(|key| {
        slab.get(*key)
            .is_some_and(|r| on_same_list(r.kind, kind) && after < r.serial)
    })
}
