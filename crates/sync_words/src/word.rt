ghost use Rattle.std.specs.Prelude.{Some};
ghost use Rattle.sync_words.specs.Texts.{word_text};

use std::fmt;

/// A shared word. Each holds a number from 0 to 16,777,215. The last four are one for each processor.
#[derive(Clone, Copy, Debug, PartialEq, Eq, PartialOrd, Ord)]
pub enum WordId {
    /// How many processors were counted in, or [`crate::LOCKED`] while the session is closed.
    Counter,
    /// The number of the boot processor, or [`crate::LOCKED`] for none.
    Bsp,
    /// 1 from the boot processor's first step until its handlers are done, else 0.
    Inside,
    /// 1 from just before the counter is locked until the session ends, else 0.
    Insync,
    /// The number of the wave that raised the interrupt, or 0.
    Source,
    /// How many processors the wave announced as blocked.
    Except,
    /// The interrupt signal of a processor ([`crate::DELIVERABLE`] and so on), plus [`crate::INSIDE`] while the
    /// processor is inside.
    Pend(u16),
    /// 0, 1 where the processor has reported, 2 where its desk was taken then.
    Present(u16),
    /// The semaphore that a processor waits on.
    Run(u16),
    /// 0 idle, 1 where a job was given, 2 where the job was run.
    Busy(u16),
}

/// Writes the word's name, with the processor's number behind where there is one for each.
impl fmt::Display for WordId {
    ghost output = { λ word. Some (word_text word) };

    fn fmt<W: fmt::Write>(&self, f: &mut fmt::Formatter<W>) -> fmt::Result {
        match self {
            WordId::Counter => f.write_str("counter"),
            WordId::Bsp => f.write_str("bsp"),
            WordId::Inside => f.write_str("inside"),
            WordId::Insync => f.write_str("insync"),
            WordId::Source => f.write_str("source"),
            WordId::Except => f.write_str("except"),
            WordId::Pend(cpu) => write!(f, "pend{cpu}"),
            WordId::Present(cpu) => write!(f, "present{cpu}"),
            WordId::Run(cpu) => write!(f, "run{cpu}"),
            WordId::Busy(cpu) => write!(f, "busy{cpu}"),
        }
    }
}
