/// The session that there is.
#[derive(Clone, Copy)]
pub struct Session {
    /// The boot processor.
    pub bsp: u16,
    /// The wave that it serves, 0 where none was raised.
    pub served: Option<u32>,
    /// How many processors it takes as blocked.
    pub gathered: Option<u32>,
    pub is_ready: bool,
    /// How often its waiting expired.
    pub expired: u32,
    pub is_closed: bool,
    /// Its serving list has begun.
    pub has_begun: bool,
    pub is_done: bool,
}
