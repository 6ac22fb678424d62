ghost use Rattle.std.specs.Prelude.{◌≡◌, ◌+◌, ◌^◌, ◌<◌, ◌≤◌, ◌++◌, ◌⊎◌, length, IfOk, OnOk, MatchResult, Ok, Err};
ghost use Rattle.std.specs.Option.{option_map};
ghost use Rattle.std.specs.List.{range_with_len};
ghost use Rattle.schedule_file.specs.Schedule.{item_reading};
ghost use Rattle.schedule_file.specs.Steps.{round_of, grown, part_reading};

use crate::error::ScheduleError;
use crate::item::{Who, read_item};
use std::alloc::AllocError;

/// A schedule has at most this many actors.
const MOST_ACTORS: usize = 4_194_304;

/// So many actors from the first one on, that often.
#[derive(Clone, Copy)]
struct Round {
    first: u16,
    actors: u32,
    times: u16,
    ghost in_range: { first + actors ≤ 65536 },
}

// The actors that the word at a byte stands for.
#[tactic(auto, unfolding(crate::specs::Schedule::item_reading))]
fn read_round(word: &[u8], at: usize, n: u16) -> Result<Round, ScheduleError>
    ensures { MatchResult result (λ round. item_reading n at word.now ≡ Ok (round_of round.first round.actors round.times)) (λ error. item_reading n at word.now ≡ Err error) }
{
    let item = read_item(word).ok_or(ScheduleError::Token(at))?;
    let times = item.count;
    match item.who {
        Who::All => Ok(Round {
            first: 0,
            actors: u32::from(n) + 1,
            times,
        }),
        Who::One(number) if number > u32::from(n) => Err(ScheduleError::Actor(at, number)),
        Who::One(number) => Ok(Round {
            first: number as u16,
            actors: 1,
            times,
        }),
    }
}

// How many actors a round has.
fn count_actors(round: Round) -> usize
    ensures count { result ≡ length (round_of round.first round.actors round.times) }
    ensures bound { result < 2 ^ 32 }
{
    usize::from(round.times) * round.actors as usize
}

// Adds some actors from the first one on.
#[tactic(auto, using(crate::proofs::ActorLists::range_more))]
fn push_range(listed: &mut Vec<u16>, first: u16, actors: u32) -> Result<(), AllocError>
    requires { first + actors ≤ 65536 }
    ensures { OnOk result (listed.new.items ≡ listed.old.items ++ range_with_len first actors) }
{
    for place in 0..actors {
        listed.push((u32::from(first) + place) as u16)?;
    }
    Ok(())
}

// Adds the actors of a round.
#[tactic(auto, using(crate::proofs::ActorLists::repeated_more))]
fn push_round(listed: &mut Vec<u16>, round: Round) -> Result<(), AllocError>
    ensures { OnOk result (listed.new.items ≡ listed.old.items ++ round_of round.first round.actors round.times) }
{
    for _time in 0..round.times {
        push_range(listed, round.first, round.actors)?;
    }
    Ok(())
}

// The actors so far with those of a round, unless they are too many.
fn add_round(listed: Option<Vec<u16>>, round: Round) -> Result<Option<Vec<u16>>, AllocError>
    ensures { IfOk result (λ now. option_map (λ actors. actors.items) now ≡ grown (option_map (λ actors. actors.items) listed) (round_of round.first round.actors round.times)) }
{
    let Some(mut actors) = listed else {
        return Ok(None);
    };
    if actors.len() + count_actors(round) > MOST_ACTORS {
        return Ok(None);
    }
    push_round(&mut actors, round)?;
    Ok(Some(actors))
}

/// The actors so far with those of the part at a byte, where that is an item. There are none from
/// where they are too many on.
pub(crate) fn add_part(
    listed: Option<Vec<u16>>,
    part: &[u8],
    at: usize,
    n: u16,
) -> Result<Option<Vec<u16>>, ScheduleError>
    ensures { MatchResult result (λ now. part_reading n at part.now (option_map (λ actors. actors.items) listed) ≡ Ok (option_map (λ actors. actors.items) now)) (λ error. (error ≡ ScheduleError.NoMemory) ⊎ (part_reading n at part.now (option_map (λ actors. actors.items) listed) ≡ Err error)) }
{
    if part.is_empty() {
        return Ok(listed);
    }
    let round = read_round(part, at, n)?;
    Ok(add_round(listed, round)?)
}
