ghost use Rattle.std.specs.Prelude.{◌≡◌, ℕ, ◌≤◌, List, Some, IsTrue};
ghost use Rattle.std.specs.List.{Contains};
ghost use Rattle.smm_base.specs.declared.kinds.HandlerType.{HandlerType};
ghost use Rattle.handler_registry.specs.declared.registration.Registration.{Registration};
ghost use Rattle.handler_registry.specs.Registrations.{Registrations, is_on_after, next_of, IsRegistered, no_registrations};
ghost use Rattle.handler_registry.specs.Changes.{Change, changed, all_changed, live_at};

/// The laws of registrations over all calls. It does nothing when it runs.
pub fn registry_laws()
    // Serial numbers are given once: a registration that is live later under a number that was
    // given before was live before, on the same list with the same handler.
    ensures given_once { (changes : List Change) (state : Registrations) (serial : ℕ) (r : Registration) → serial ≤ state.last → live_at serial (all_changed changes state) ≡ Some r → live_at serial state ≡ Some r }

    // At most 64 are live, by rising serial number, at the start and after each call.
    ensures at_first { IsRegistered no_registrations }
    ensures kept { (change : Change) (state : Registrations) → IsRegistered state → IsRegistered (changed change state) }

    // The next one has the least serial number of those that are due.
    ensures least { (kind : HandlerType) (after next : ℕ) (state : Registrations) (r : Registration) → IsRegistered state → next_of kind after state ≡ Some next → Contains state.live r → IsTrue (is_on_after kind after r) → next ≤ r.serial }
{}
