ghost use Rattle.std.specs.Prelude.{◌≡◌, ◌≤◌, length};
ghost use Rattle.std.specs.List.{count_by};
ghost use Rattle.cpu_table.specs.Waves.{arrivals_of, is_blocked};
ghost use Rattle.chipset.specs.Chipsets.{signal_for};

use cpu_table::{Arrival, Wave};
use sync_words::{BLOCKED, DELIVERABLE, HELD};

/// What each processor does as the interrupt of this wave comes.
pub fn arrivals_of(waves: &[Wave], wave: u32) -> &[Arrival]
    ensures { result.now ≡ arrivals_of waves.now wave }
{
    if wave == 0 {
        return &[];
    }
    match waves.get(wave as usize - 1) {
        Some(wave) => wave.status.as_slice(),
        None => &[],
    }
}

/// How many of them are blocked.
pub fn count_blocked(arrivals: &[Arrival]) -> u32
    requires { length arrivals.now ≤ 64 }
    ensures { result ≡ count_by is_blocked arrivals.now }
{
    arrivals
        .iter()
        .filter(|arrival| is_blocked(**arrival))
        .count() as u32
}

fn is_blocked(arrival: Arrival) -> bool
    ensures { result ≡ is_blocked arrival }
{
    matches!(arrival, Arrival::Blocked)
}

/// The signal that a processor gets.
pub fn signal_for(arrival: Arrival) -> u32
    ensures { result ≡ signal_for arrival }
{
    match arrival {
        Arrival::Prompt => DELIVERABLE,
        Arrival::Delayed => HELD,
        Arrival::Blocked | Arrival::Absent => BLOCKED,
    }
}
