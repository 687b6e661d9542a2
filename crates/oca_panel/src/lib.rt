//! A control panel's side of OCA (AES70): a device's objects are asked, set, locked and listed by what they are, and an
//! error says what happened.
//!
//! Begin with [`Panel::open`] over a [`UdpEnd`](oca_net::UdpEnd): then `panel.set(Ono(4097),
//! Value::Mute(MuteState::Muted))` sends the command, waits for its answer, and returns whether the answer says that it
//! was carried out. While the call waits, it sends the command again each 250 ms. [`Panel::get`] and [`Panel::reading`]
//! read a value, the second with its limits; [`Walk`] lists the objects of a device; with [`InFlight`] several commands
//! are in flight at once, and are waited for in their order. [`OwnPort`] gives a first handle by the time of day.
//! [`Trouble`] is the one error: as a text it has the name of the status.
//!
//! Between commands call [`Panel::turn`], which sends keep-alives too: a device releases the locks of a panel that it
//! did not hear for more than 15 seconds. No copy of a command is sent more than 15,000 ms after it was submitted. If
//! the command has no answer then, the link is late, and the panel takes no command ([`Panel::is_lost`]).
#![tactic(auto)]

mod answering;
mod asked;
mod beginning;
mod in_flight;
mod objects;
mod outcomes;
mod own_port;
mod panel;
mod trouble;
mod walk;
mod watched;
mod way;

pub use answering::{Probed, keep_alive, probe};
pub use in_flight::InFlight;
pub use outcomes::{answer_of, done_in};
pub use own_port::{OwnPort, law_of_turns};
pub use panel::Panel;
pub use trouble::Trouble;
pub use walk::{Description, Found, MOST_PLACES, Place, ROOT, Visit, Walk};
pub use watched::Watched;
pub use way::{LocalPort, Reached, Unreached, Way};
