ghost use Rattle.std.specs.Prelude.{IsTrue};
ghost use Rattle.std.specs.Option.{ForSome};
ghost use Rattle.serving_place.specs.Calling.{is_calling};

use crate::state::State;
use cpu_table::Setup;
use smi_manage::Manage;

/// The most levels of walks.
pub const MOST_LEVELS: usize = 4;

/// A handler that is being called, and which of its operations comes next, from 0.
#[derive(Clone, Copy)]
pub struct Called {
    pub handler: u16,
    pub at: usize,
}

/// An open walk, and which handler of it is being called.
#[derive(Clone, Copy)]
pub struct Walk {
    pub manage: Manage,
    pub called: Option<Called>,
    pub ghost awaits: { ForSome called (λ _. IsTrue (is_calling manage)) },
}

/// What was begun and has still to be said.
#[derive(Clone, Copy)]
pub enum Pending {
    Nothing,
    /// The first label, of the wave with this number.
    First(u32),
    /// An operation whose unit began.
    Started(Called),
    /// The collect of the job of a processor, whose result a variable takes.
    Awaited { cpu: u16, into: u8 },
}

/// Where the serving of a session stands.
#[derive(Drop)]
pub struct Progress {
    pub setup: Setup,
    /// The boot processor.
    pub me: u16,
    /// The wave that is served.
    pub wave: u32,
    /// Which of the wave's walks comes next, from 0.
    pub entry: usize,
    /// The open walks. The last one was opened last.
    pub walks: Vec<Walk>,
    pub pending: Pending,
    /// The word of the processor that is given a job was put already.
    pub marked: bool,
    pub state: State,
}
