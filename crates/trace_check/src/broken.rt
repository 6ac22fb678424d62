/// A label that its actor may not say now.
#[derive(Clone, Copy, Debug, PartialEq, Eq)]
pub struct Broken {
    /// The number of the label's rule, from 1.
    pub rule: u8,
}
