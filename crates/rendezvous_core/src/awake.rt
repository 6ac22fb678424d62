ghost use Rattle.std.specs.Prelude.{◌≡◌, ◌<◌, length, replicate, slice_index_or, true};
ghost use Rattle.rendezvous_core.specs.Asleep.{woken, noted};

use crate::stepped::Stepped;
use sync_words::Access;

// All actors may make an event again, since a word has changed.
fn wake(awake: &mut [bool])
    ensures { awake.new ≡ replicate (length awake.old) true }
{
    for place in 0..awake.len() {
        awake[place] = true;
    }
}

// Who is known to make no event after this one: a look changes no word.
fn wake_by(access: Access, awake: &mut [bool])
    ensures { awake.new ≡ woken access awake.old }
{
    match access {
        Access::Look => {}
        _ => wake(awake),
    }
}

/// What is known of the actors after a step of one of them.
pub fn note(stepped: Stepped, actor: u16, awake: &mut [bool])
    requires { actor < length awake.old }
    ensures { awake.new ≡ noted stepped actor awake.old }
{
    match stepped {
        Stepped::Event(event) => wake_by(event.access, awake),
        Stepped::Waiting(_) | Stepped::Off => awake[usize::from(actor)] = false,
    }
}

/// May this actor make an event, as far as is known?
pub fn is_awake(awake: &[bool], actor: u16) -> bool
    ensures { result ≡ slice_index_or awake.now actor true }
{
    awake.get(usize::from(actor)).copied().unwrap_or(true)
}
