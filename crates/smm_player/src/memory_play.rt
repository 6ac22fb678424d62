ghost use Rattle.std.specs.Prelude.{◌≡◌, ◌⊎◌, ◌<◌, ◌-◌, ◌^◌, [], IsOk, IsSomeAnd};
ghost use Rattle.smm_base.specs.MemSink.{FaultlessSink};
ghost use Rattle.smm_base.specs.MemStore.{file_of, FaultlessStore};
ghost use Rattle.smm_command.specs.Commands.{texts, form_of};
ghost use Rattle.smm_player.specs.Outcome.{due};

use crate::playing::play;
use smm_base::{MemSink, MemStore};
use std::alloc::Global;

/// Plays on a store and a sink in memory of which no call fails. Where the words are of a command's
/// form and the files are good, all is done, unless there is no memory.
pub fn play_in_memory(
    alloc: Global,
    words: &Vec<String>,
    store: &mut MemStore,
    out: &mut MemSink,
) -> u8
    requires good { IsSomeAnd (form_of (texts words.now.items)) (λ asked. IsOk (due asked (file_of store.old))) }
    requires store_works { FaultlessStore store.old }
    requires sink_works { FaultlessSink out.old }
    ensures { (result ≡ 0) ⊎ (result ≡ 8) }
{
    play(alloc, words, store, out)
}
