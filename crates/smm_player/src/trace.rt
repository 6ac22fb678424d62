use cpu_table::Setup;
use save_state_map::Image;

/// What a check works on: the platform, an image for each processor, and the bytes of the trace.
#[derive(Drop)]
pub(crate) struct TraceInputs {
    pub(crate) setup: Setup,
    pub(crate) images: Vec<Image>,
    pub(crate) bytes: Vec<u8>,
}
