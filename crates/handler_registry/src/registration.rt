use smm_base::HandlerType;

/// A handler on a list. Handlers of one list are called by rising serial number.
#[derive(Clone, Copy)]
pub struct Registration {
    /// 1 to 4,294,967,295; no other registration was or will be given it.
    pub serial: u32,
    /// The list on which the handler is.
    pub kind: HandlerType,
    /// The handler's place in the platform's list of handlers.
    pub handler: u16,
}
