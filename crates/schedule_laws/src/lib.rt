// The law of every schedule: on each platform, of any number of processors, the labels of its replay are a run of the
// rendezvous machine, and the images after are the machine's last resumed ones. It does nothing when it runs.
#![tactic(auto)]

mod every;

pub use every::every_schedule;
