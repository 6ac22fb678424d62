ghost use Rattle.std.specs.Prelude.{◌≡◌, ◌<◌, ◌≤◌, ◌+◌, ◌-◌, ◌^◌, IfSome, IsSome, MatchOption, None, [], ◌∷◌, position, length, drop, take, slice_get, slice_index_or, option_copied, option_map};
ghost use Rattle.cpu_table.specs.Ranges.{same_text};
ghost use Rattle.serving_place.specs.declared.progress.Pending.TheVariants as pending;
ghost use Rattle.serving_place.specs.Operations.{procedure_place};
ghost use Rattle.serving_place.specs.Forms.{status_of, operations_of};
ghost use Rattle.serving_place.specs.Beginning.{walks_of};
ghost use Rattle.serving_place.specs.Places as begun;
ghost use Rattle.serving_place.specs.Places.{levels_left};
ghost use Rattle.serving_place.specs.Setting.{first_cause};
ghost use Rattle.serving_place.specs.Progresses.{setting_in, program_in, place_in, walk_of, walks_in, call_of, begun_in, turns_of, first_turn};

use crate::progress::{Called, MOST_LEVELS, Progress, Walk};
use crate::token::MOST_TOKENS;
use cpu_table::{OpDef, ProcedureDef, Text, Wave};
use handler_registry::Registry;
use smi_manage::Manage;
use smm_base::{HandlerType, Status};
use sync_words::StartRefusal;

fn place_of(procedures: &[ProcedureDef], name: &str) -> Option<u16>
    requires { length procedures.now ≤ 64 }
    ensures { result ≡ procedure_place procedures.now name.now }
{
    match position_of(procedures, name) {
        Some(place) => Some(place as u16),
        None => None,
    }
}

fn position_of(procedures: &[ProcedureDef], name: &str) -> Option<usize>
    ensures place { result ≡ position (λ p. same_text p.name name.now) procedures.now }
    ensures within { IfSome result (λ place. place < length procedures.now) }
{
    procedures
        .iter()
        .position(|procedure| procedure.name.as_str() == name)
}

impl Progress {
    /// The id of a processor, or 0 where the platform hasn't the processor.
    #[tactic(auto, using(crate::proofs::Looks::index_is))]
    pub fn id_of(&self, c: u16) -> u64
        ensures { result ≡ slice_index_or (setting_in self.now).ids c 0 }
    {
        self.setup.ids.id_of(c).unwrap_or(0)
    }

    /// The first of four causes that refuses a start.
    pub fn first_cause(
        &self,
        with_token: bool,
        cpu: u16,
        place: Option<u16>,
    ) -> Option<StartRefusal>
        ensures { result ≡ first_cause (setting_in self.now) self.now.state with_token cpu place }
    {
        if cpu >= self.setup.processors {
            Some(StartRefusal::OutOfRange)
        } else if cpu == self.me {
            Some(StartRefusal::BootProcessor)
        } else if place.is_none() {
            Some(StartRefusal::UnknownProcedure)
        } else if with_token && self.state.tokens_out() >= MOST_TOKENS {
            Some(StartRefusal::Tokens)
        } else {
            None
        }
    }

    /// The place of the procedure with this name in the platform's list. None where there is none.
    pub fn place_of(&self, name: &Text) -> Option<u16>
        ensures { result ≡ procedure_place self.now.setup.procedures name.now }
    {
        place_of(self.setup.procedures.as_slice(), name.as_str())
    }
}

/// The handler to call next in a walk. None where its turns are over.
#[tactic(auto, using(crate::proofs::Turns::first_turn_is))]
pub fn next_handler(manage: Manage, registry: &Registry) -> Option<u16>
    ensures { result ≡ first_turn manage.kind (turns_of manage) registry.now }
{
    let _ = registry.last();
    let mut walk = manage;
    match walk.next(registry) {
        Some(serial) => registry.handler_of(serial),
        None => None,
    }
}

fn kind_at(kinds: &[HandlerType], place: usize) -> Option<HandlerType>
    ensures some { IsSome result → place + 1 < 2 ^ 64 }
    ensures next { MatchOption result (drop place kinds.now ≡ []) (λ kind. drop place kinds.now ≡ kind ∷ drop (place + 1) kinds.now) }
{
    kinds.get(place).copied()
}

fn operation_at(ops: &[OpDef], place: usize) -> Option<&OpDef>
    ensures some { IsSome result → place + 1 < 2 ^ 64 }
    ensures next { MatchOption result (drop place ops.now ≡ []) (λ o. drop place ops.now ≡ o.now ∷ drop (place + 1) ops.now) }
    ensures value { option_copied result ≡ slice_get ops.now place }
{
    ops.get(place)
}

#[tactic(auto, using(crate::proofs::Looks::walks_at))]
fn walks_of(waves: &[Wave], wave: u32) -> &[HandlerType]
    ensures { result.now ≡ walks_of waves.now wave }
{
    if wave == 0 {
        return &[];
    }
    match waves.get(wave as usize - 1) {
        Some(wave) => wave.manage.as_slice(),
        None => &[],
    }
}

impl Progress {
    /// The walk that was opened last.
    pub fn top(&self) -> Option<&Walk>
        ensures some { IsSome result → 0 < length self.now.walks.items }
        ensures value { option_copied result ≡ slice_get self.now.walks.items (length self.now.walks.items - 1) }
        ensures walks { MatchOption result ((place_in self.now).walks ≡ []) (λ w. (place_in self.now).walks ≡ walk_of (program_in self.now) w.now ∷ walks_in (program_in self.now) (take (length self.now.walks.items - 1) self.now.walks.items)) }
    {
        self.walks.last()
    }

    /// How many levels may be opened above the open walks.
    #[tactic(auto, using(crate::proofs::Looks::levels_are))]
    pub fn levels(&self) -> usize
        ensures left { result ≡ levels_left (place_in self.now).walks }
        ensures few { result ≡ 4 - length self.now.walks.items }
    {
        MOST_LEVELS.saturating_sub(self.walks.len())
    }

    /// The next walk of the wave.
    pub fn next_kind(&self) -> Option<HandlerType>
        ensures some { IsSome result → self.now.entry + 1 < 2 ^ 64 }
        ensures kinds { MatchOption result ((place_in self.now).kinds ≡ []) (λ kind. (place_in self.now).kinds ≡ kind ∷ drop (self.now.entry + 1) (walks_of self.now.setup.waves self.now.wave)) }
    {
        kind_at(self.kinds(), self.entry)
    }

    /// The walks of the wave that is served.
    pub fn kinds(&self) -> &[HandlerType]
        ensures { result.now ≡ walks_of self.now.setup.waves self.now.wave }
    {
        walks_of(self.setup.waves.as_slice(), self.wave)
    }

    /// The status that a handler returns.
    pub fn status_of(&self, place: u16) -> Status
        ensures { result ≡ status_of (program_in self.now) place }
    {
        match self.setup.handlers.as_slice().get(usize::from(place)) {
            Some(handler) => handler.answer,
            None => Status::Success,
        }
    }

    fn operations_of(&self, place: u16) -> &[OpDef]
        ensures { result.now ≡ operations_of (program_in self.now) place }
    {
        match self.setup.handlers.as_slice().get(usize::from(place)) {
            Some(handler) => handler.ops.as_slice(),
            None => &[],
        }
    }

    /// The next operation of a handler that is being called.
    pub fn operation(&self, called: Called) -> Option<&OpDef>
        ensures some { IsSome result → called.at + 1 < 2 ^ 64 }
        ensures next { MatchOption result ((call_of (program_in self.now) called).ops ≡ []) (λ o. (call_of (program_in self.now) called).ops ≡ o.now ∷ drop (called.at + 1) (operations_of (program_in self.now) called.handler)) }
        ensures started { begun_in (program_in self.now) (pending.Started called) ≡ option_map begun.Started (option_copied result) }
        ensures value { option_copied result ≡ slice_get (operations_of (program_in self.now) called.handler) called.at }
    {
        operation_at(self.operations_of(called.handler), called.at)
    }
}
