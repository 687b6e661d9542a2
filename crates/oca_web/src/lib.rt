//! A panel in the browser, without its sockets: what is known of a device, the orders of the pages, and the answers to
//! requests of HTTP.
//!
//! Begin with [`View`]: it finds the objects of a device over a [`Panel`](oca_panel::Panel), reads their values again
//! and again while a page is open, and submits what the pages order, each order at most once and in their order. A [`Site`] is
//! the service over a view that a connection of `http_server` calls; it is never given the panel, so no request can
//! touch the link. Nothing here opens a socket; the time is that of the panel's end.
#![tactic(auto)]

mod admission;
mod answers;
mod body;
mod inventory;
mod object;
mod order;
mod orders;
mod page;
mod poll;
mod question;
mod site;
mod view;

pub use admission::{Key, Name, Terms, Unit, UnitOf};
pub use inventory::Inventory;
pub use object::{Lock, Object, ObjectState, Objects, is_class_name};
pub use order::{
    Action, Identity, Label, MOST_RESULTS, MOST_WAITING, NewOrder, NotDone, Order, OrderInFlight,
    OrderResult,
};
pub use orders::Orders;
pub use page::{PAGE, POLICY};
pub use site::Site;
pub use view::{LinkStatus, View};
