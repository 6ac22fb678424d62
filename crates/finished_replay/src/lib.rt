// The replay of a schedule that is carried on until every actor is off.
#![tactic(auto)]

mod finished;

pub use finished::finished_replay_of;
