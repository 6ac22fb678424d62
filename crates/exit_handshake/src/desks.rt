ghost use Rattle.std.specs.Prelude.{◌≡◌, ◌<◌, ℕ};
ghost use Rattle.exit_handshake.specs.Desks.{is_set, desks_of, holds};

use std::marker::Model;

fn is_set(bits: u64, cpu: u16) -> bool
    requires { cpu < 64 }
    ensures { result ≡ is_set bits cpu }
{
    (bits >> cpu) & 1 == 1
}

/// Whose desks a BSP holds: one bit for each of 64 processors.
#[derive(Drop)]
pub struct Desks {
    bits: u64,
}

impl Model for Desks {
    ghost use Rattle.std.specs.Prelude.{List, Bool};
    ghost use Rattle.exit_handshake.specs.Desks.{desks_of};

    ghost Value = { List Bool };

    ghost view = { λ d. desks_of d.bits };
}

impl Desks {
    /// The desks of the processors whose bit is 1.
    pub fn of(bits: u64) -> Desks
        ensures { result ≡ desks_of bits }
    {
        Desks { bits }
    }

    /// Whether the desk of a processor is among them.
    pub fn holds(&self, cpu: u16) -> bool
        ensures { result ≡ holds self.now cpu }
    {
        cpu < 64 && is_set(self.bits, cpu)
    }
}
