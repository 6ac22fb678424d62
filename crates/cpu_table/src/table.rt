ghost use Rattle.std.specs.Prelude.{◌≡◌, ◌==◌, ◌<◌, ◌≤◌, IfOk, IfErr, IfSome, OnOk, eqb, length, position, slice_get};
ghost use Rattle.std.specs.List.{IsDistinct};

use std::alloc::{AllocError, AllocFailed, Global};
use std::fmt;
use std::marker::Model;

/// The most processors that a platform has.
pub const MOST_PROCESSORS: usize = 64;

/// Why a list of ids is no table.
#[derive(Clone, Copy, Debug, PartialEq, Eq)]
pub enum TableError {
    /// There are more than 64 ids; their number.
    TooMany(usize),
    /// The first id that stands before it already.
    Repeated(u64),
    NoMemory,
}

/// The cause, and after it the number: `too-many COUNT`, `repeated ID` or `no memory`.
impl fmt::Display for TableError {
    ghost use Rattle.std.specs.Prelude.{Some};
    ghost use Rattle.cpu_table.specs.Texts.{table_error_text};

    ghost output = { λ error. Some (table_error_text error) };

    fn fmt<W: fmt::Write>(&self, f: &mut fmt::Formatter<W>) -> fmt::Result {
        match self {
            TableError::TooMany(count) => write!(f, "too-many {count}"),
            TableError::Repeated(id) => write!(f, "repeated {id}"),
            TableError::NoMemory => f.write_str("no memory"),
        }
    }
}

impl From<AllocFailed<u64>> for TableError {
    ghost use Rattle.cpu_table.specs.declared.table.TableError.TheVariants.{NoMemory as no_memory};

    ghost from_gives = { λ _ e. e ≡ no_memory };

    fn from(_: AllocFailed<u64>) -> Self {
        TableError::NoMemory
    }
}

/// The place of the first id that is this one.
fn place_of(ids: &[u64], id: u64) -> Option<usize>
    ensures place { result ≡ position (λ x. x == id) ids.now }
    ensures within { IfSome result (λ place. place < length ids.now) }
{
    ids.iter().position(|held| *held == id)
}

/// The ids of the processors, by processor number: at most 64, and no two the same.
#[derive(Drop)]
pub struct CpuTable {
    ids: Vec<u64>,
}

impl Model for CpuTable {
    ghost use Rattle.std.specs.Prelude.{List, ℕ, ◌≤◌, eqb, length};
    ghost use Rattle.std.specs.List.{IsDistinct};

    ghost Value = { List ℕ };

    ghost view = { λ table. table.ids.items };

    ghost invariant = { λ table. (length table.ids.items ≤ 64) × IsDistinct eqb table.ids.items };
}

impl CpuTable {
    ghost use Rattle.cpu_table.specs.Table.{Refuses};

    /// The table with the ids in this order. The number of ids is judged first.
    pub fn new(alloc: Global, ids: &[u64]) -> Result<CpuTable, TableError>
        ensures ok { IfOk result (λ table. table ≡ ids.now) }
        ensures few { OnOk result (length ids.now ≤ 64) }
        ensures distinct { OnOk result (IsDistinct eqb ids.now) }
        ensures refused { IfErr result (Refuses ids.now) }
    {
        if ids.len() > MOST_PROCESSORS {
            return Err(TableError::TooMany(ids.len()));
        }
        let mut held = Vec::new(alloc);
        for id in ids {
            if held.contains(id) {
                return Err(TableError::Repeated(*id));
            }
            held.push(*id)?;
        }
        Ok(CpuTable { ids: held })
    }

    /// The number of ids.
    pub fn len(&self) -> usize
        ensures len { result ≡ length self.now }
        ensures few { length self.now ≤ 64 }
        ensures distinct { IsDistinct eqb self.now }
    {
        self.ids.len()
    }

    /// The number of the processor with this id. None where no processor has it.
    pub fn number_of(&self, id: u64) -> Option<u16>
        ensures { result ≡ position (λ x. x == id) self.now }
    {
        match place_of(self.ids.as_slice(), id) {
            Some(number) => Some(number as u16),
            None => None,
        }
    }

    /// The id of the processor with this number. None where the table has no such number.
    pub fn id_of(&self, n: u16) -> Option<u64>
        ensures { result ≡ slice_get self.now n }
    {
        self.ids.get(usize::from(n)).copied()
    }
}

/// The copy has the same ids in the same order.
impl Clone for CpuTable {
    ghost is_clone = { λ table copy. copy ≡ table };

    fn clone(&self) -> Result<Self, AllocError> {
        Ok(CpuTable {
            ids: self.ids.clone()?,
        })
    }
}
