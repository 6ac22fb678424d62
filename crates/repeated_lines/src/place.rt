ghost use Rattle.std.specs.Prelude.{◌<◌};

use sync_words::{Event, Label, WordId};

// The words of one kind stand side by side.
fn word_number(word: WordId) -> u32 {
    match word {
        WordId::Counter => 1,
        WordId::Bsp => 2,
        WordId::Insync => 3,
        WordId::Source => 4,
        WordId::Except => 5,
        WordId::Inside => 6,
        WordId::Pend(cpu) => u32::from(cpu).wrapping_add(8),
        WordId::Present(cpu) => u32::from(cpu).wrapping_add(72),
        WordId::Run(cpu) => u32::from(cpu).wrapping_add(136),
        WordId::Busy(cpu) => u32::from(cpu).wrapping_add(200),
    }
}

// A number of a label of serving by what its line begins with or what differs most from one to the next, and 0 of another label.
fn label_number(label: Label) -> u32 {
    match label {
        Label::Call(handler) => u32::from(handler).wrapping_add(48),
        Label::Return { handler, .. } => u32::from(handler).wrapping_add(112),
        Label::Set { variable, value } => ((value % 256) as u32)
            .wrapping_add(u32::from(variable))
            .wrapping_add(16),
        Label::Read { cpu, value, .. } => ((value % 256) as u32)
            .wrapping_add(u32::from(cpu))
            .wrapping_add(24),
        Label::Write { cpu, value, .. } => ((value % 256) as u32)
            .wrapping_add(u32::from(cpu))
            .wrapping_add(32),
        Label::Alloc { place, .. } => ((place / 32 % 256) as u32).wrapping_add(176),
        Label::Free { place, .. } => ((place / 32 % 256) as u32).wrapping_add(192),
        Label::Register { serial, .. } => serial.wrapping_add(208),
        Label::Unregister { handle, .. } => ((handle % 256) as u32).wrapping_add(224),
        Label::Start { cpu, .. } => u32::from(cpu).wrapping_add(96),
        Label::Run { .. } => 160,
        Label::Wait { .. } => 240,
        _ => 0,
    }
}

/// May the same line come again soon? One with the number of a job comes once a session.
pub fn may_come_again(label: &Label) -> bool {
    !matches!(
        label,
        Label::Start { .. } | Label::Run { .. } | Label::Wait { .. }
    )
}

/// Where the line of an event is kept, or its opening: events of many actors, and labels that come one after the other, have different places.
pub fn place_of(event: &Event) -> usize
    ensures { result < 256 }
{
    let number = u32::from(event.actor)
        .wrapping_mul(6)
        .wrapping_add(word_number(event.word))
        .wrapping_add(label_number(event.label));
    (number % 256) as usize
}
