// The law that nothing is stuck: on each platform, of any number of processors, after every schedule all actors are off, or
// some actor makes an event. It does nothing when it runs.
#![tactic(auto)]

mod every;

pub use every::every_world_goes_on;
