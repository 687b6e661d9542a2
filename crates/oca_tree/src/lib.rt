//! The objects of a device (AES70-2): their tree, their ranges and their locks.
//!
//! Begin with [`TreeBuilder`], which adds objects one by one, and [`Tree::execute`], which carries a
//! peer's command out. Once a tree is built nothing here takes memory (this is read in the code: no clause
//! says it), and nothing reads a clock.
#![tactic(auto)]

mod answer;
mod bench_tree;
mod builder;
mod change;
mod description;
mod execute;
mod front;
mod infos;
mod laws;
mod lengths;
mod marks;
mod object;
mod objects;
mod place;
mod request;
mod room;
mod same;
mod setting;
mod start;
mod tree;

pub use bench_tree::{bench, bench_with_channels};
pub use builder::{AddFault, Kind, Spec, TreeBuilder};
pub use front::FrontFault;
pub use infos::ObjectInfos;
pub use laws::{
    law_of_copies, law_of_descendants, law_of_set_requests, law_of_settings, law_of_starts,
    law_of_typed_requests,
};
pub use object::{Lock, LockKind};
pub use oca_model::{MuteState, PolarityState, Value};
pub use room::Room;
pub use setting::SetFault;
pub use start::{Start, StartFault};
pub use tree::{Done, ObjectInfo, Setting, Tree};
