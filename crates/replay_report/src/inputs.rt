use cpu_table::Setup;
use save_state_map::Image;

/// What a replay works on: the platform, an image for each processor, and the actors of the schedule.
#[derive(Drop)]
pub struct Inputs {
    pub setup: Setup,
    pub images: Vec<Image>,
    pub actors: Vec<u16>,
}
