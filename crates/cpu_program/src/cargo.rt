use handler_ops::{BoxedDesk, Server};

/// What changes hands at an access.
#[derive(Drop)]
pub enum Cargo {
    /// A processor's image and job.
    Desk(BoxedDesk),
    /// The state of serving, which the BSP has.
    Chair(Server),
}
