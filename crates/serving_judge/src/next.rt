use serving_place::Called;
use sync_words::{Label, StartRefusal};

/// What a place of serving waits for.
#[derive(Clone, Copy)]
pub enum Next {
    /// Serving is over.
    Nothing,
    /// This label.
    Say(Label),
    /// The collect of the job of a processor, once it was run.
    Collect(u16),
    /// The label of an operation whose unit begins or has begun.
    Operation(Called),
}

/// A job that the operation that is due is to give to a processor.
#[derive(Clone, Copy, Debug, PartialEq, Eq)]
pub struct StartDue {
    pub cpu: u16,
    /// It gives a token, and isn't waited for.
    pub is_launch: bool,
    /// Why it is refused: the first of the causes that serving itself knows, which are all but `Busy` and `Absent`.
    pub cause: Option<StartRefusal>,
}
