ghost use Rattle.std.specs.Prelude.{◌≡◌, ◌<◌, ◌+◌, IfOk, replicate};
ghost use Rattle.cpu_table.specs.Causes.{cause_of, no_cause};
ghost use Rattle.cpu_program.specs.Visits.{causes_of, kept};

use cpu_table::{CauseAt, Setup};
use smm_base::{Cause, NoMemory};
use std::alloc::Global;

/// What stays with a processor for good: its platform, its own number, and the causes of its visits.
#[derive(Drop)]
pub struct Identity {
    pub setup: Setup,
    pub me: u16,
    /// That of each visit, in their order.
    causes: Vec<Cause>,
    pub ghost by_visit: { causes.items ≡ causes_of setup.causes me setup.visits },
}

impl Identity {
    /// That of a processor of the platform. The time is at most proportional to the numbers of visits and of causes, the memory to
    /// that of visits.
    pub fn new(alloc: Global, setup: Setup, me: u16) -> Result<Identity, NoMemory>
        ensures setup { IfOk result (λ identity. identity.setup ≡ setup) }
        ensures me { IfOk result (λ identity. identity.me ≡ me) }
    {
        let causes = visit_causes(alloc, setup.causes.as_slice(), me, setup.visits)?;
        Ok(Identity { setup, me, causes })
    }

    /// The cause of the visit that comes after this many. Constant time.
    pub fn next_cause(&self, begun: u32) -> Cause
        requires { begun < self.now.setup.visits }
        ensures { result ≡ cause_of self.now.setup.causes self.now.me (begun + 1) }
    {
        self.causes[begun as usize]
    }
}

// The causes of a processor's visits. Of two entries for one visit the first counts, and so it is kept last.
fn visit_causes(
    alloc: Global,
    entries: &[CauseAt],
    me: u16,
    visits: u32,
) -> Result<Vec<Cause>, NoMemory>
    ensures { IfOk result (λ causes. causes.items ≡ causes_of entries.now me visits) }
{
    let mut causes = no_causes(alloc, visits)?;
    for i in (0..entries.len()).rev() {
        keep(&mut causes, me, &entries[i]);
    }
    Ok(causes)
}

fn no_causes(alloc: Global, visits: u32) -> Result<Vec<Cause>, NoMemory>
    ensures { IfOk result (λ causes. causes.items ≡ replicate visits no_cause) }
{
    let none = Cause {
        halt: false,
        io: None,
    };
    let mut causes = Vec::with_capacity(alloc, visits as usize)?;
    for _visit in 0..visits {
        causes.push(none)?;
    }
    Ok(causes)
}

// Keeps the cause of an entry for one of the processor's visits.
fn keep(causes: &mut Vec<Cause>, me: u16, entry: &CauseAt)
    ensures { causes.new.items ≡ kept me entry.now causes.old.items }
{
    let visit = entry.visit as usize;
    if entry.cpu == me && 1 <= visit && visit <= causes.len() {
        causes[visit - 1] = entry.cause;
    }
}
