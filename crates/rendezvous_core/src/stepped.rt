use sync_words::Event;

/// What came of one step of an actor.
#[derive(Clone, Copy, Debug, PartialEq, Eq)]
pub enum Stepped {
    Event(Event),
    /// The wanted access isn't ready on the number that the word has.
    Waiting(u32),
    /// The actor wants nothing any more.
    Off,
}
