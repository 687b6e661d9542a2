//! Both ends of a control link over a network of lists.
#![tactic(auto)]

mod fault;
mod given;
mod law;
mod outcome;
mod pair;
mod running;
mod sent;
mod start;
mod step;

pub use fault::PairFault;
pub use law::{
    law_answered_in_time, law_answers, law_getting_through, law_never_old, law_of_what_is_said,
    law_once_in_time, law_round_trip,
};
pub use outcome::Outcome;
pub use pair::{Transcript, run_pair, run_pair_with_sizes};
pub use sent::Sent;
pub use start::Start;
pub use step::Step;
