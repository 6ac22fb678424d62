ghost use Rattle.std.specs.Prelude.{◌≡◌};
ghost use Rattle.serving_place.specs.Sayings.{known_label, request_in};

use sync_words::Label;

/// What is said after a need.
#[derive(Clone, Copy)]
pub enum Saying {
    /// This label.
    Known(Label),
    /// The label of a request of so many bytes of the pool, which is made then.
    Allocation(u64),
    /// The label of giving back the block at an address, which is given back then.
    Release(u64),
}

/// What is asked of the pool where a label is said.
#[derive(Clone, Copy)]
pub enum Request {
    /// Nothing: the label is known before.
    Nothing,
    /// So many bytes. The label is that of what the pool answers.
    Allocation(u64),
    /// That it takes back the block at an address. The label is that of what the pool answers.
    Release(u64),
}

impl Saying {
    /// The label, if it is known; else `Silent`.
    pub fn known(&self) -> Label
        ensures { result ≡ known_label self.now }
    {
        match self {
            Saying::Known(label) => *label,
            Saying::Allocation(_) => Label::Silent,
            Saying::Release(_) => Label::Silent,
        }
    }

    /// What is asked of the pool.
    pub fn request(&self) -> Request
        ensures { result ≡ request_in self.now }
    {
        match self {
            Saying::Known(_) => Request::Nothing,
            Saying::Allocation(size) => Request::Allocation(*size),
            Saying::Release(place) => Request::Release(*place),
        }
    }
}
