ghost use Rattle.std.specs.Prelude.{◌≡◌, ◌<◌, ◌≤◌, ◌-◌, IfSome, IsSome, IsSomeAnd, MatchOption, Some, ◌∷◌, [], length, take, slice_get, option_copied, vec_capacity};
ghost use Rattle.serving_place.specs.declared.progress.Pending.TheVariants as pending;
ghost use Rattle.serving_place.specs.Forms.{Own, status_of, operations_of, operations_in};
ghost use Rattle.serving_place.specs.Places.{levels_left, ended, place_at, at_left, with_walk, with_return, after_turn, after_in_call, after_in_walks, after_doing, next};
ghost use Rattle.serving_place.specs.Due.{due, due_in_call, due_in_walks};
ghost use Rattle.serving_place.specs.Progresses.{program_in, place_in, walk_of, walks_in, call_of, turns_of};
ghost use Rattle.serving_place.specs.Sayings.{Fits, label_in, known_label, operation_due, request_in, said_as};
ghost use Rattle.serving_place.specs.Moves.{pending_by, awaited_by, manage_kind, entered};

use crate::progress::{Called, Pending, Progress, Walk};
use crate::saying::{Request, Saying};
use cpu_table::{HandlerDef, OpDef};
use smi_manage::Manage;
use smm_base::HandlerType;
use sync_words::Label;

fn manage_kind(op: &OpDef) -> Option<HandlerType>
    ensures { result ≡ manage_kind op.now }
{
    match op {
        OpDef::Manage { kind } => Some(*kind),
        _ => None,
    }
}

fn awaited_by(op: &OpDef) -> Pending
    ensures { result ≡ awaited_by op.now }
{
    match op {
        OpDef::Start { cpu, into, .. } => Pending::Awaited {
            cpu: *cpu,
            into: *into,
        },
        _ => Pending::Nothing,
    }
}

// What is to be said after what an operation said.
fn pending_by(called: Called, op: &OpDef, label: &Label) -> Pending
    ensures { result ≡ pending_by called op.now label.now }
{
    match label {
        Label::Collect(_) => Pending::Started(called),
        Label::Start { .. } => awaited_by(op),
        _ => Pending::Nothing,
    }
}

fn operation_of(handlers: &[HandlerDef], called: Called) -> Option<&OpDef>
    ensures { option_copied result ≡ slice_get (operations_in (slice_get handlers.now called.handler)) called.at }
{
    match handlers.get(usize::from(called.handler)) {
        Some(handler) => handler.ops.as_slice().get(called.at),
        None => None,
    }
}

impl Progress {
    /// Nothing is left to say.
    fn end(&mut self)
        ensures place { place_in self.new ≡ ended self.old.state }
        ensures stays { self.new ≡ record self.old { entry = self.new.entry; walks = self.new.walks; pending = self.new.pending } }
        ensures room { vec_capacity self.new.walks ≡ vec_capacity self.old.walks }
    {
        self.entry = self.kinds().len();
        self.walks.clear();
        self.pending = Pending::Nothing;
    }

    /// The walk that was opened last is replaced.
    #[tactic(auto, using(crate::proofs::Stack::top_set))]
    fn set_top(&mut self, walk: Walk)
        requires { 0 < length self.old.walks.items }
        ensures walks { walks_in (program_in self.old) self.new.walks.items
            ≡ walk_of (program_in self.old) walk ∷ walks_in (program_in self.old) (take (length self.old.walks.items - 1) self.old.walks.items) }
        ensures stays { self.new ≡ record self.old { walks = self.new.walks } }
        ensures room { vec_capacity self.new.walks ≡ vec_capacity self.old.walks }
    {
        let last = self.walks.len() - 1;
        self.walks[last] = walk;
    }

    /// A walk is opened, where a level is left for it.
    #[tactic(auto, using(crate::proofs::Stack::push_walk, crate::proofs::Stack::with_walk_some, crate::proofs::Stack::with_walk_none))]
    fn open_walk(&mut self, kind: HandlerType)
        requires begun { self.old.pending ≡ pending.Nothing }
        requires room { 4 ≤ vec_capacity self.old.walks }
        ensures place { place_in self.new ≡ with_walk (levels_left (place_in self.old).walks) (place_in self.old).kinds (place_in self.old).walks kind self.old.state }
        ensures stays { self.new ≡ record self.old { walks = self.new.walks } }
        ensures room { vec_capacity self.new.walks ≡ vec_capacity self.old.walks }
    {
        if self.levels() > 0 {
            self.walks.push_reserved(Walk {
                manage: Manage::begin(kind, self.state.registrations()),
                called: None,
            });
        }
    }

    /// The next walk of the wave begins in a unit of its own, where there is one and a unit is left.
    #[tactic(auto, using(crate::proofs::Stack::at_left_none, crate::proofs::Stack::at_left_some))]
    fn next_entry(&mut self)
        requires begun { self.old.pending ≡ pending.Nothing }
        requires none { (place_in self.old).walks ≡ [] }
        requires room { 4 ≤ vec_capacity self.old.walks }
        ensures place { place_in self.new ≡ entered (place_in self.old).kinds self.old.state }
        ensures stays { self.new ≡ record self.old { entry = self.new.entry; walks = self.new.walks; pending = self.new.pending; state = self.new.state } }
        ensures room { vec_capacity self.new.walks ≡ vec_capacity self.old.walks }
    {
        match self.next_kind() {
            None => {}
            Some(kind) => {
                if self.state.left() == 0 {
                    self.end();
                } else {
                    self.state.begin_unit();
                    self.entry += 1;
                    self.open_walk(kind);
                }
            }
        }
    }

    /// The walk with its next turn begun. None where its turns are over.
    #[tactic(auto, using(crate::proofs::Turned::turned_none, crate::proofs::Turned::turned_lost, crate::proofs::Turned::turned_some))]
    fn turn(&self, walk: Walk) -> Option<Walk>
        ensures { MatchOption result
            (after_turn (program_in self.now) (place_in self.now).kinds (walks_in (program_in self.now) (take (length self.now.walks.items - 1) self.now.walks.items))
            walk.manage.kind (turns_of walk.manage) walk.manage.running self.now.state
            ≡ place_at (place_in self.now).kinds (walks_in (program_in self.now) (take (length self.now.walks.items - 1) self.now.walks.items)) self.now.state)
            (λ w. after_turn (program_in self.now) (place_in self.now).kinds (walks_in (program_in self.now) (take (length self.now.walks.items - 1) self.now.walks.items))
            walk.manage.kind (turns_of walk.manage) walk.manage.running self.now.state
            ≡ at_left self.now.state.left (ended self.now.state)
            (λ m. place_at (place_in self.now).kinds (walk_of (program_in self.now) w ∷ walks_in (program_in self.now) (take (length self.now.walks.items - 1) self.now.walks.items)) (record self.now.state { left = m }))) }
    {
        let _ = self.state.registrations().last();
        let mut manage = walk.manage;
        match manage.next(self.state.registrations()) {
            None => None,
            Some(serial) => match self.state.registrations().handler_of(serial) {
                None => None,
                Some(handler) => Some(Walk {
                    manage,
                    called: Some(Called { handler, at: 0 }),
                }),
            },
        }
    }

    /// The walk goes on to its next turn, in a unit of its own, or ends.
    #[tactic(auto, using(crate::proofs::Stack::at_left_none, crate::proofs::Stack::at_left_some))]
    fn next_turn(&mut self, walk: Walk)
        requires begun { self.old.pending ≡ pending.Nothing }
        requires some { 0 < length self.old.walks.items }
        ensures place { place_in self.new ≡ after_turn (program_in self.old) (place_in self.old).kinds (walks_in (program_in self.old) (take (length self.old.walks.items - 1) self.old.walks.items))
            walk.manage.kind (turns_of walk.manage) walk.manage.running self.old.state }
        ensures stays { self.new ≡ record self.old { entry = self.new.entry; walks = self.new.walks; pending = self.new.pending; state = self.new.state } }
        ensures room { vec_capacity self.new.walks ≡ vec_capacity self.old.walks }
    {
        match self.turn(walk) {
            None => self.walks.truncate(self.walks.len() - 1),
            Some(next) => {
                if self.state.left() == 0 {
                    self.end();
                } else {
                    self.state.begin_unit();
                    self.set_top(next);
                }
            }
        }
    }

    /// The handler that is being called returns its status.
    #[tactic(auto, using(crate::proofs::Turned::returned_walk, crate::proofs::Turned::awaits_is))]
    #[inline(never)]
    fn handler_returns(&mut self, walk: Walk, called: Called)
        requires begun { self.old.pending ≡ pending.Nothing }
        requires some { 0 < length self.old.walks.items }
        requires called { walk.called ≡ Some called }
        ensures place { place_in self.new ≡ place_at (place_in self.old).kinds
            (with_return (walk_of (program_in self.old) walk) (status_of (program_in self.old) called.handler) ∷ walks_in (program_in self.old) (take (length self.old.walks.items - 1) self.old.walks.items))
            self.old.state }
        ensures stays { self.new ≡ record self.old { walks = self.new.walks } }
        ensures room { vec_capacity self.new.walks ≡ vec_capacity self.old.walks }
    {
        let mut manage = walk.manage;
        manage.answer(self.status_of(called.handler));
        self.set_top(Walk {
            manage,
            called: None,
        });
    }
}

impl Progress {
    /// The operation says its own label, or the collect of a job before it; a manage opens a walk.
    #[tactic(auto, using(crate::proofs::Doing::known_manage, crate::proofs::Doing::doing_manage, crate::proofs::Doing::doing_other))]
    fn operate(&mut self, called: Called, request: &Request, label: &mut Label)
        requires begun { self.old.pending ≡ pending.Nothing }
        requires room { 4 ≤ vec_capacity self.old.walks }
        requires fits { IsSomeAnd (slice_get (operations_of (program_in self.old) called.handler) called.at) (λ o. Fits (said_as request.now label.old) (Some o) self.old.state) }
        ensures said { label.new ≡ label_in self.old.state.pool (said_as request.now label.old) }
        ensures place { IfSome (slice_get (operations_of (program_in self.old) called.handler) called.at)
            (λ o. place_in self.new ≡ after_doing (levels_left (place_in self.old).walks) (place_in self.old).kinds (place_in self.old).walks o self.old.state (label_in self.old.state.pool (said_as request.now label.old))) }
        ensures stays { self.new ≡ record self.old { walks = self.new.walks; pending = self.new.pending; state = self.new.state } }
        ensures room { vec_capacity self.new.walks ≡ vec_capacity self.old.walks }
    {
        let setup = &self.setup;
        if let Some(op) = operation_of(setup.handlers.as_slice(), called) {
            match manage_kind(op) {
                Some(kind) => self.open_walk(kind),
                None => {
                    self.state.operate(op, request, label);
                    self.pending = pending_by(called, op, label);
                }
            }
        }
    }

    /// The handler that is being called in the walk that was opened last returns its status.
    fn return_from(&mut self, called: Called)
        requires begun { self.old.pending ≡ pending.Nothing }
        requires called { IsSomeAnd (slice_get self.old.walks.items (length self.old.walks.items - 1)) (λ w. w.called ≡ Some called) }
        ensures place { IfSome (slice_get self.old.walks.items (length self.old.walks.items - 1)) (λ w. place_in self.new ≡ place_at (place_in self.old).kinds
            (with_return (walk_of (program_in self.old) w) (status_of (program_in self.old) called.handler) ∷ walks_in (program_in self.old) (take (length self.old.walks.items - 1) self.old.walks.items))
            self.old.state) }
        ensures stays { self.new ≡ record self.old { walks = self.new.walks } }
        ensures room { vec_capacity self.new.walks ≡ vec_capacity self.old.walks }
    {
        if let Some(walk) = self.top() {
            let walk = *walk;
            self.handler_returns(walk, called);
        }
    }

    /// The handler that is being called in the walk that was opened last goes on to this operation.
    fn go_on_to(&mut self, next: Called)
        requires calling { IsSomeAnd (slice_get self.old.walks.items (length self.old.walks.items - 1)) (λ w. IsSome w.called) }
        ensures walks { IfSome (slice_get self.old.walks.items (length self.old.walks.items - 1)) (λ w. walks_in (program_in self.old) self.new.walks.items
            ≡ record (walk_of (program_in self.old) w) { called = Some (call_of (program_in self.old) next) } ∷ walks_in (program_in self.old) (take (length self.old.walks.items - 1) self.old.walks.items)) }
        ensures stays { self.new ≡ record self.old { walks = self.new.walks } }
        ensures room { vec_capacity self.new.walks ≡ vec_capacity self.old.walks }
    {
        if let Some(walk) = self.top() {
            let manage = walk.manage;
            self.set_top(Walk {
                manage,
                called: Some(next),
            });
        }
    }

    /// A handler that is being called goes on to its next operation, in a unit of its own, or returns.
    #[tactic(auto, using(crate::proofs::Doing::known_at, crate::proofs::Doing::known_spent, crate::proofs::Doing::begins_fit, crate::proofs::Stack::at_left_none, crate::proofs::Stack::at_left_some))]
    fn in_call(&mut self, called: Called, request: &Request, label: &mut Label)
        requires begun { self.old.pending ≡ pending.Nothing }
        requires room { 4 ≤ vec_capacity self.old.walks }
        requires some { 0 < length self.old.walks.items }
        requires called { IsSomeAnd (slice_get self.old.walks.items (length self.old.walks.items - 1)) (λ w. w.called ≡ Some called) }
        requires fits { Fits (said_as request.now label.old) (operation_due (due_in_call (program_in self.old) (levels_left (place_in self.old).walks) called.handler (call_of (program_in self.old) called).ops self.old.state.left)) self.old.state }
        ensures said { label.new ≡ label_in self.old.state.pool (said_as request.now label.old) }
        ensures place { IfSome (slice_get self.old.walks.items (length self.old.walks.items - 1)) (λ w. place_in self.new ≡ after_in_call (program_in self.old) (place_in self.old).kinds (walks_in (program_in self.old) (take (length self.old.walks.items - 1) self.old.walks.items))
            (walk_of (program_in self.old) w) called.handler (call_of (program_in self.old) called).ops self.old.state (label_in self.old.state.pool (said_as request.now label.old))) }
        ensures stays { self.new ≡ record self.old { entry = self.new.entry; walks = self.new.walks; pending = self.new.pending; state = self.new.state } }
        ensures room { vec_capacity self.new.walks ≡ vec_capacity self.old.walks }
    {
        match self.operation(called) {
            None => self.return_from(called),
            Some(_) => {
                if self.state.left() == 0 {
                    self.end();
                } else {
                    self.state.begin_unit();
                    self.go_on_to(Called {
                        handler: called.handler,
                        at: called.at + 1,
                    });
                    self.operate(called, request, label);
                }
            }
        }
    }

    /// The same where nothing that was begun is still to be said.
    #[tactic(auto, using(crate::proofs::Doing::known_entry, crate::proofs::Doing::known_turns, crate::proofs::Doing::entered_is, crate::proofs::Doing::in_walks_is, crate::proofs::Doing::due_in_walks_is))]
    fn say_open(&mut self, request: &Request, label: &mut Label)
        requires begun { self.old.pending ≡ pending.Nothing }
        requires room { 4 ≤ vec_capacity self.old.walks }
        requires fits { Fits (said_as request.now label.old) (operation_due (due_in_walks (program_in self.old) (place_in self.old).kinds (place_in self.old).walks self.old.state.registrations self.old.state.left)) self.old.state }
        ensures said { label.new ≡ label_in self.old.state.pool (said_as request.now label.old) }
        ensures place { place_in self.new ≡ after_in_walks (program_in self.old) (place_in self.old).kinds (place_in self.old).walks self.old.state (label_in self.old.state.pool (said_as request.now label.old)) }
        ensures stays { self.new ≡ record self.old { entry = self.new.entry; walks = self.new.walks; pending = self.new.pending; state = self.new.state } }
        ensures room { vec_capacity self.new.walks ≡ vec_capacity self.old.walks }
    {
        match self.top() {
            None => self.next_entry(),
            Some(walk) => match walk.called {
                None => {
                    let walk = *walk;
                    self.next_turn(walk);
                }
                Some(called) => self.in_call(called, request, label),
            },
        }
    }

    /// A label is said, with what it changes; that of a request is what the pool answers.
    #[tactic(auto, using(crate::proofs::Doing::known_at))]
    pub fn say_on(&mut self, request: &Request, label: &mut Label)
        requires room { 4 ≤ vec_capacity self.old.walks }
        requires fits { Fits (said_as request.now label.old) (operation_due (due (program_in self.old) (place_in self.old))) self.old.state }
        ensures said { label.new ≡ label_in self.old.state.pool (said_as request.now label.old) }
        ensures place { place_in self.new ≡ next (program_in self.old) (place_in self.old) (Own (label_in self.old.state.pool (said_as request.now label.old))) }
        ensures stays { self.new ≡ record self.old { entry = self.new.entry; walks = self.new.walks; pending = self.new.pending; state = self.new.state } }
        ensures room { vec_capacity self.new.walks ≡ vec_capacity self.old.walks }
    {
        let pending = self.pending;
        self.pending = Pending::Nothing;
        match pending {
            Pending::Nothing => self.say_open(request, label),
            Pending::First(_) => {}
            Pending::Awaited { cpu, into } => self.state.return_to(cpu, into),
            Pending::Started(called) => match self.operation(called) {
                Some(_) => self.operate(called, request, label),
                None => self.say_open(request, label),
            },
        }
    }

    /// The same of what is said by its value.
    #[tactic(auto, using(crate::proofs::Doing::saying_parts))]
    pub fn say(&mut self, saying: Saying) -> Label
        requires room { 4 ≤ vec_capacity self.old.walks }
        requires fits { Fits saying (operation_due (due (program_in self.old) (place_in self.old))) self.old.state }
        ensures label { result ≡ label_in self.old.state.pool saying }
        ensures place { place_in self.new ≡ next (program_in self.old) (place_in self.old) (Own (label_in self.old.state.pool saying)) }
        ensures stays { self.new ≡ record self.old { entry = self.new.entry; walks = self.new.walks; pending = self.new.pending; state = self.new.state } }
        ensures room { vec_capacity self.new.walks ≡ vec_capacity self.old.walks }
    {
        let mut label = saying.known();
        self.say_on(&saying.request(), &mut label);
        label
    }
}
