/// Where the image of a processor is to be had.
#[derive(Clone, Copy)]
pub enum Reach {
    /// The processor is none of the platform's.
    Outside,
    /// Its image is at hand.
    AtHand,
    /// It has a job.
    Working,
    /// It is elsewhere.
    Elsewhere,
}
