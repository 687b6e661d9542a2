//! The orders of the pages: those that wait, those in flight, and how the last ones ended. Each is submitted at most
//! once, in time and for the object that its page showed; its result is stored under its ticket.
ghost use Rattle.std.specs.Prelude.{◌≡◌, ◌<◌, length, nat_lt, IfSome};
ghost use Rattle.std.specs.List.{position};
ghost use Rattle.oca_web.specs.Orders.{LosesOrders, SettlesAt, SettlesOrders, SubmitsFirst, SubmitsOrders};

use crate::object::{Object, is_confirmed};
use crate::order::{
    MOST_IN_FLIGHT, MOST_RESULTS, MOST_WAITING, NewOrder, NotDone, Order, OrderInFlight,
    OrderResult,
};
use arrayvec::ArrayVec;
use oca_control::ControlFault;
use oca_net::End;
use oca_panel::{Panel, Trouble, done_in};
use oca_types::{Handle, Ono};
use std::marker::Model;

/// The orders of the pages. An order *waits* until its command is submitted, then it is *in flight* until
/// the outcome is known, and then its result is stored. At most 256 orders wait, 32 are in flight, and 512 results are
/// stored. Each order has a *ticket*, the number by which its page knows it; tickets count up from 1. No call here
/// takes memory.
#[derive(Drop)]
pub struct Orders {
    waiting: ArrayVec<Order, MOST_WAITING>,
    in_flight: ArrayVec<OrderInFlight, MOST_IN_FLIGHT>,
    results: ArrayVec<OrderResult, MOST_RESULTS>,
    tickets: u64,
}

impl Model for Orders {
    ghost use Rattle.oca_web.specs.Orders.{OrdersState};

    ghost Value = { OrdersState };

    ghost view = { λ o. record {
      waiting = o.waiting.items;
      in_flight = o.in_flight.items;
      results = o.results.items;
      tickets = o.tickets;
    } };
}

impl Orders {
    ghost use Rattle.std.specs.Prelude.{◌≡◌, ◌≤◌, ◌<◌, ◌+◌, ◌∷◌, ◌++◌, remove, slice_get, length, [], Some};
    ghost use Rattle.oca_net.specs.Ends.{one_more};
    ghost use Rattle.oca_web.specs.Orders.{AddsAll, EndsAt, has_room_for, is_in_flight, lost_orders, no_orders, ready_of};
    ghost use Rattle.oca_web.specs.Orders.{has_waiting, not_done, result_of, with_order, with_result, with_unsent};

    /// Returns a list without orders, in which no ticket is used.
    pub fn new() -> Orders
        ensures { result ≡ no_orders }
    {
        Orders {
            waiting: ArrayVec::new(),
            in_flight: ArrayVec::new(),
            results: ArrayVec::new(),
            tickets: 0,
        }
    }

    /// Returns the ticket that the next order gets: 1 at first, and one more after each order. The result
    /// is 2^64 - 1 also if that ticket is used; no further order is then added.
    pub fn next_ticket(&self) -> u64
        ensures { result ≡ one_more self.now.tickets }
    {
        self.tickets.saturating_add(1)
    }

    /// Returns whether `count` more orders can be added: then at most 256 orders would wait, and each would get a ticket
    /// below 2^64 - 1.
    pub fn has_room(&self, count: usize) -> bool
        ensures { result ≡ has_room_for count self.now }
    {
        count <= MOST_WAITING.saturating_sub(self.waiting.len())
            && (count as u64) < u64::MAX - self.tickets
    }

    /// Adds the orders `wanted`, all of them or none, as [`View::order_all`](crate::View::order_all) does. If `wanted`
    /// is empty, the result is the next ticket, and no order is added.
    #[tactic(auto, using(crate::proofs::OrderLemmas::many_rules))]
    pub fn add_all(&mut self, wanted: &[NewOrder], last: u64) -> Option<u64>
        ensures { AddsAll wanted.now last self.old result self.new }
    {
        if !self.has_room(wanted.len()) {
            return None;
        }
        let first = self.tickets + 1;
        for order in wanted {
            self.push(*order, last);
        }
        Some(first)
    }

    /// Adds an order, for which there is room, with the next ticket.
    fn push(&mut self, wanted: NewOrder, last: u64)
        requires room { length self.old.waiting < 256 }
        requires tickets { self.old.tickets < 18446744073709551615 }
        ensures { self.new ≡ with_order wanted last self.old }
    {
        self.tickets += 1;
        self.waiting.push(Order {
            ticket: self.tickets,
            ono: wanted.ono,
            identity: wanted.identity,
            action: wanted.action,
            last,
        });
    }

    /// Whether an order of this object is in flight.
    fn is_in_flight(&self, ono: Ono) -> bool
        ensures { result ≡ is_in_flight ono.0 self.now.in_flight }
    {
        self.in_flight
            .as_slice()
            .iter()
            .any(|sent| sent.order.ono.0 == ono.0)
    }

    /// Returns the order that is submitted next: the first that waits. The result is `None` if no order
    /// waits, an order for the same object is in flight, or 32 orders are in flight. The call submits nothing and
    /// changes nothing.
    pub fn ready(&self) -> Option<Order>
        ensures { result ≡ ready_of self.now.waiting self.now.in_flight }
    {
        let order = self.waiting.as_slice().first().copied()?;
        if self.is_in_flight(order.ono) || self.in_flight.is_full() {
            return None;
        }
        Some(order)
    }

    /// Moves the order that is ready to those in flight, under the handle of its command.
    #[tactic(auto, using(crate::proofs::OrderLemmas::ready_is_first, crate::proofs::OrderLemmas::ready_has_room))]
    pub(crate) fn note_submitted(&mut self, order: Order, handle: Handle)
        requires { ready_of self.old.waiting self.old.in_flight ≡ Some order }
        ensures first { self.old.waiting ≡ order ∷ self.new.waiting }
        ensures in_flight { self.new.in_flight ≡ self.old.in_flight ++ (record { handle = handle; order = order })
            ∷ [] }
        ensures results { self.new.results ≡ self.old.results }
        ensures tickets { self.new.tickets ≡ self.old.tickets }
    {
        let _ = self.waiting.pop_at(0);
        let _ = self.in_flight.try_push(OrderInFlight { handle, order });
    }

    /// Returns the number of orders in flight: their commands were submitted, and the outcomes are not known yet.
    /// The result is from 0, as at first, to 32.
    pub fn in_flight(&self) -> usize
        ensures value { result ≡ length self.now.in_flight }
        ensures most { result ≤ 32 }
    {
        self.in_flight.len()
    }

    /// Returns whether at least one order waits: its command was not submitted yet. The result is `false`
    /// at first.
    pub fn waits(&self) -> bool
        ensures { result ≡ has_waiting self.now }
    {
        !self.waiting.is_empty()
    }

    /// Stores how an order ended, before the first result with a greater ticket. If 512 results are stored, the first
    /// one is removed.
    fn note_result(&mut self, order: Order, done: Result<(), NotDone>)
        ensures { self.new ≡ record self.old { results = with_result self.old.results (result_of order done) } }
    {
        if self.results.is_full() {
            self.results.remove(0);
        }
        let result = OrderResult {
            ticket: order.ticket,
            ono: order.ono,
            done,
        };
        match index_behind(self.results.as_slice(), order.ticket) {
            Some(at) => self.results.insert(at, result),
            None => self.results.push(result),
        }
    }

    /// Removes the order at index `at` of those in flight, and stores how it ended.
    pub(crate) fn settle(&mut self, at: usize, sent: &OrderInFlight, done: Result<(), Trouble>)
        requires { slice_get self.old.in_flight at ≡ Some sent.now }
        ensures { self.new ≡ record self.old {
          in_flight = remove self.old.in_flight at;
          results = with_result
              self.old.results (result_of sent.now.order (not_done done));
        } }
    {
        let order = sent.order;
        let _ = self.in_flight.pop_at(at);
        self.note_result(order, done.map_err(|trouble| NotDone::Trouble(trouble)));
    }

    /// Ends all orders, since the link is lost: those in flight as lost (they may have been carried out), and those that
    /// wait as not sent.
    #[tactic(auto, using(crate::proofs::OrderLemmas::losing_rules))]
    pub(crate) fn lose(&mut self)
        ensures { self.new ≡ lost_orders self.old }
    {
        while let Some(sent) = self.in_flight.pop_at(0) {
            self.note_result(sent.order, Err(NotDone::Trouble(Trouble::Lost)));
        }
        self.lose_waiting(NotDone::Trouble(Trouble::NotSubmitted(ControlFault::Lost)));
    }

    /// Ends all orders that wait, for this reason.
    #[tactic(auto, using(crate::proofs::OrderLemmas::losing_rules))]
    pub(crate) fn lose_waiting(&mut self, reason: NotDone)
        ensures { self.new ≡ record self.old {
          waiting = [];
          results = with_unsent reason self.old.waiting self.old.results;
        } }
    {
        while let Some(order) = self.waiting.pop_at(0) {
            self.note_result(order, Err(reason));
        }
    }

    /// The order at this index of those that wait.
    pub(crate) fn waiting_at(&self, at: usize) -> Option<Order>
        ensures { result ≡ slice_get self.now.waiting at }
    {
        self.waiting.as_slice().get(at).copied()
    }

    /// Ends the order at this index of those that wait, for this reason, if there is one.
    pub(crate) fn end_at(&mut self, at: usize, reason: NotDone)
        ensures { EndsAt at reason (slice_get self.old.waiting at) self.old self.new }
    {
        if let Some(order) = self.waiting.pop_at(at) {
            self.note_result(order, Err(reason));
        }
    }

    /// Returns how the last orders ended, in the order of their tickets: from 0, as at first, to 512 results.
    /// If 512 results are stored, the result with the lowest ticket is removed before another is stored.
    pub fn results(&self) -> &[OrderResult]
        ensures { result.now ≡ self.now.results }
    {
        self.results.as_slice()
    }

    /// The greatest handle of an order in flight plus 1, and 0 if none is in flight.
    pub(crate) fn next_handle(&self) -> u32 {
        let handles = self.in_flight.as_slice().iter().map(|sent| sent.handle.0);
        handles.max().map_or(0, |handle| handle.saturating_add(1))
    }

    /// The lowest handle of an order in flight, and `next` if none is in flight.
    pub(crate) fn lowest_handle(&self, next: u32) -> u32 {
        let handles = self.in_flight.as_slice().iter().map(|sent| sent.handle.0);
        handles.min().unwrap_or(next)
    }
}

/// The index of the first result with a greater ticket.
#[tactic(auto, using(crate::proofs::OrderLemmas::placed_within))]
fn index_behind(results: &[OrderResult], ticket: u64) -> Option<usize>
    ensures place { result ≡ position (λ r. nat_lt ticket r.ticket) results.now }
    ensures within { IfSome result (λ at. at < length results.now) }
{
    results.iter().position(|other| ticket < other.ticket)
}

/// Submits the next order of the pages, and returns whether it did. Its command is then sent at once, and the order is
/// in flight. `known` are the objects of the device, and the program's clock is `ahead` milliseconds ahead of the clock
/// of the panel's end. The result is `false` if no order is ready ([`Orders::ready`]), its last moment has passed, its
/// object is not the one that its page showed, the device did not say so within the last 2,000 ms when it was asked after
/// the order's request was read (5,000 ms before the order's last moment), or the link refuses the command; then nothing
/// is changed or sent.
pub fn submit_first<E: End>(
    orders: &mut Orders,
    known: &[Object],
    panel: &mut Panel<E>,
    ahead: u64,
) -> bool
    ensures { SubmitsFirst ahead known.now result orders.old panel.old orders.new panel.new }
{
    let Some(order) = orders.ready() else {
        return false;
    };
    let now = panel.end().now();
    if order.last < ahead || order.last - ahead < now || !is_confirmed(known, &order, ahead + now) {
        return false;
    }
    match panel.begin_request(order.ono, order.action.class(), &order.action.request()) {
        Ok(handle) => {
            orders.note_submitted(order, handle);
            true
        }
        Err(_) => false,
    }
}

/// Submits the orders that wait, in the order in which they came, each once, as [`submit_first`] does. The call stops
/// at the first that can't be submitted now; the next call tries that one first.
#[tactic(auto, using(crate::proofs::StepLemmas::submit_rules))]
pub fn submit_orders<E: End>(
    orders: &mut Orders,
    known: &[Object],
    panel: &mut Panel<E>,
    ahead: u64,
)
    ensures { SubmitsOrders ahead known.now orders.old panel.old orders.new panel.new }
{
    for _order in 0..32u32 {
        if !submit_first(orders, known, panel, ahead) {
            return;
        }
    }
}

/// An order in flight whose outcome was taken.
#[derive(Clone, Copy, PartialEq, Eq)]
pub struct SettledOrder {
    /// The order, with the handle of its command.
    pub sent: OrderInFlight,
    /// `Ok` if the order was carried out, otherwise why not.
    pub done: Result<(), Trouble>,
}

impl Default for SettledOrder {
    /// An order that nobody gave.
    fn default() -> Self {
        SettledOrder {
            sent: OrderInFlight::default(),
            done: Err(Trouble::Unanswered),
        }
    }
}

/// Takes the outcome of the order at index `at` of those in flight, and stores its result under its ticket. Returns the
/// order, which is then no longer in flight, and its outcome. The result is `None` if the outcome is not known yet, or
/// there is no such order; then nothing is changed. The call sends nothing and does not wait.
pub fn settle_at<E: End>(
    orders: &mut Orders,
    panel: &mut Panel<E>,
    at: usize,
) -> Option<SettledOrder>
    ensures { SettlesAt at result orders.old panel.old orders.new panel.new }
{
    let sent = orders.in_flight.as_slice().get(at).copied()?;
    let outcome = panel.try_finish(sent.handle)?;
    let done = done_in(&outcome);
    orders.settle(at, &sent, done);
    Some(SettledOrder { sent, done })
}

/// Takes the outcome of each order in flight whose outcome is known, and stores its result under its ticket. The
/// outcome is known if the command was answered, and of all orders if the link is lost. Returns these orders with their
/// outcomes, from 0 to 32; the others stay in flight. The call sends nothing, does not wait and takes no memory.
#[tactic(auto, using(crate::proofs::StepLemmas::settle_rules))]
pub fn settle_orders<E: End>(
    orders: &mut Orders,
    panel: &mut Panel<E>,
) -> ArrayVec<SettledOrder, 32>
    ensures { SettlesOrders orders.old panel.old orders.new panel.new }
{
    let mut all = ArrayVec::new();
    let mut at = 0usize;
    for _order in 0..orders.in_flight() {
        match settle_at(orders, panel, at) {
            Some(settled) => {
                let _ = all.try_push(settled);
            }
            None => at = at.saturating_add(1),
        }
    }
    all
}

/// Ends all orders if the link is lost or late ([`View`](crate::View)), and returns whether it is. The orders in flight
/// are then stored as lost (they may have been carried out), and the orders that wait as not sent; otherwise nothing is
/// changed. The call sends nothing and takes no memory.
pub fn lose_orders<E: End>(orders: &mut Orders, panel: &Panel<E>) -> bool
    ensures { LosesOrders result panel.now orders.old orders.new }
{
    if !panel.finds_lost() {
        return false;
    }
    orders.lose();
    true
}
