/// What a thread passes on its way. A thread calls it just after each of its `enter` events.
pub trait Gate {
    /// The actor's number is given. Nothing that a contract sees changes.
    fn pass(&self, actor: u16);
}

/// The gate that does nothing.
#[derive(Clone, Copy)]
pub struct OpenGate;

impl Gate for OpenGate {
    fn pass(&self, _actor: u16) {}
}
