use std::fmt;

/// What is wrong with a line of a trace.
#[derive(Clone, Copy, Debug, PartialEq, Eq)]
pub enum LineFault {
    /// It is neither the line of an event nor a last line that ends the trace.
    Text,
    /// It breaks the rule with this number.
    Rule(u8),
}

/// The first line of a trace that is at fault, counted from 1.
#[derive(Clone, Copy, Debug, PartialEq, Eq)]
pub struct TraceFault {
    pub line: u64,
    pub fault: LineFault,
}

/// Writes the words that stand after `fault trace `.
impl fmt::Display for TraceFault {
    ghost use Rattle.std.specs.Prelude.{Some};
    ghost use Rattle.trace_judge.specs.Verdicts.{trace_fault_text};

    ghost output = { λ fault. Some (trace_fault_text fault) };

    fn fmt<W: fmt::Write>(&self, f: &mut fmt::Formatter<W>) -> fmt::Result {
        match self.fault {
            LineFault::Text => write!(f, "line {} text", self.line),
            LineFault::Rule(rule) => write!(f, "line {} rule {rule}", self.line),
        }
    }
}
