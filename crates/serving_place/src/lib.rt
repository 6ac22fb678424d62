// What serving knows and where it stands: the form of a serving list, the place that stands for it, and what moves the place
// by a label. It knows no words, no desks and no threads.
#![tactic(auto)]

mod beginning;
mod laws;
mod moving;
mod place;
mod progress;
mod saying;
mod seat;
mod state;
mod token;

pub use beginning::{free_seats, pool_of_platform, registered};
pub use laws::{serving_lists, standing};
pub use place::next_handler;
pub use progress::{Called, MOST_LEVELS, Pending, Progress, Walk};
pub use saying::{Request, Saying};
pub use seat::Seat;
pub use state::{State, pool_status};
pub use token::{MOST_TOKENS, Token, TokenState, Tokens};
