ghost use Rattle.std.specs.Prelude.{◌≡◌, ◌+◌, ◌^◌, ◌<◌, ◌≤◌};
ghost use Rattle.cpu_table.specs.Layout.{areas_end};
ghost use Rattle.smbase_reloc.specs.Areas.{smbase_of};
ghost use Rattle.smbase_reloc.specs.Layouts.{HaveRoom};

use cpu_table::Smram;
use std::marker::Model;

/// Where 1 to 64 processors enter and save their states in an area that has room for them.
#[derive(Clone, Copy, PartialEq, Eq)]
pub struct Layout {
    area: Smram,
    processors: u16,
}

impl Model for Layout {
    ghost use Rattle.smbase_reloc.specs.Layouts.{Places, HaveRoom};

    ghost Value = { Places };

    ghost view = { λ l. record { area = l.area; processors = l.processors } };

    ghost invariant = { λ l. HaveRoom (record { area = l.area; processors = l.processors }) };

    ghost inverse = { λ v. record { area = v.area; processors = v.processors } };
}

impl Layout {
    pub(crate) fn of(area: Smram, processors: u16) -> Layout
        requires { HaveRoom (record { area = area; processors = processors }) }
        ensures { result ≡ record { area = area; processors = processors } }
    {
        Layout { area, processors }
    }

    /// How many processors it is for.
    pub fn processors(&self) -> u16
        ensures value { result ≡ self.now.processors }
        ensures few { result ≤ 64 }
    {
        self.processors
    }

    /// The SMBASE of a processor. It fits the 4 bytes that a save state has for it.
    pub fn smbase(&self, i: u16) -> u64
        requires { i < self.now.processors }
        ensures value { result ≡ smbase_of self.now.area i }
        ensures fits { result < 2 ^ 32 }
    {
        self.area.base - 0x8000 + u64::from(i) * self.area.tile
    }

    /// Where the last of the processors' save states ends.
    pub fn end(&self) -> u64
        ensures value { result ≡ areas_end self.now.area self.now.processors }
        ensures within { result ≤ self.now.area.base + self.now.area.size }
    {
        self.area.base + u64::from(self.processors - 1) * self.area.tile + 0x8000
    }
}
