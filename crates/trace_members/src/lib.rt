// The processors of a rendezvous, as a checker of labels keeps them: what the rules ask of one or of all, and what becomes of them.
#![tactic(auto)]

mod access;
mod member;
mod members;
mod starting;

pub use access::{after_of, answers, shows_read, write_status};
pub use member::Member;
pub use members::{
    all_collected, all_departed, all_released, all_reported, clear_all, count_of, depart,
    enclose_all, enter, is_enclosed, is_finished, is_gone, is_here, is_in, is_least, is_open,
    is_out, is_released, is_waiting, job_of, phase_of, release, resume, run, set_job, set_phase,
    visits_of, write,
};
pub use starting::first_members;
