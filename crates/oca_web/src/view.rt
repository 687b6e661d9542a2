//! A view of a device: what is known of it, the orders of the pages, and how its link is.
ghost use Rattle.std.specs.Prelude.{◌≡◌};

use crate::inventory::Inventory;
use crate::order::{NewOrder, NotDone};
use crate::orders::{Orders, lose_orders, settle_orders, submit_orders};
use crate::question::{MOST_QUESTIONS, Question, ask_one};
use oca_model::{Value, value_from_word};
use oca_net::End;
use oca_panel::Panel;
use oca_types::{Handle, NoMemory, Ono, Peer, Span};
use std::alloc::Global;

/// The longest time between two looks at the clock in which the program did not stand still, in milliseconds.
const LONGEST_STANDSTILL_MS: u64 = 2000;

/// The state of the link to the device. Moments are in milliseconds of the program's clock.
#[derive(Clone, Copy, Default)]
pub struct LinkStatus {
    /// The present moment.
    pub now: u64,
    /// The moment when the device was last heard, and `None` if it was never heard.
    pub heard: Option<u64>,
    /// The moment since which the link is lost, and `None` if it is not lost.
    pub lost_since: Option<u64>,
    /// How many links were lost since the view was made.
    pub lost: u64,
    /// How many datagrams were sent since the view was made, over all ends.
    pub sent: u64,
    /// How many keep-alives were sent since the view was made, over all ends.
    pub keep_alives: u64,
}

/// The present end, and what the ends before it add to its own clock and counts.
#[derive(Clone, Copy)]
pub struct CurrentEnd {
    /// The first handle.
    first_handle: u32,
    /// By how many milliseconds the program's clock is ahead of the end's.
    ahead: u64,
    /// How many datagrams were sent over the ends before.
    sent_before: u64,
    /// How many commands were submitted over the ends before.
    submitted_before: u64,
}

/// A view of a device: what is known of the device, the orders of the pages, and the state of the link. The
/// link itself is in a [`Panel`], which is passed to each call that needs it. [`Inventory`] says what a walk, a round
/// and a place are, and [`Orders`] what an order and a ticket are.
///
/// Over an *end*, which is a socket, a view submits commands with rising handles; later it can go on over another end.
/// A link is *lost* if a command was sent 20 times without an answer. A link is *late* if a command is unanswered more
/// than 15,000 ms after its submission. The *program's clock* counts milliseconds over all ends, and never goes back.
#[derive(Drop)]
pub struct View {
    device: Peer,
    span: Span,
    current: CurrentEnd,
    next_handle: u32,
    orders: Orders,
    inventory: Inventory,
    link: LinkStatus,
}

impl View {
    ghost use Rattle.std.specs.Prelude.{◌≡◌, ◌-◌, IfOk, IfSome};
    ghost use Rattle.oca_net.specs.Ends.{one_more};
    ghost use Rattle.oca_web.specs.Bodies.{IsForWord};
    ghost use Rattle.oca_web.specs.Known.{KeepsQuestion};
    ghost use Rattle.oca_web.specs.Orders.{AddsAll, EndsUnsent, SubmitsOrders, lost_orders, no_orders};
    ghost use Rattle.oca_web.specs.Views.{AsksQuestions, Continues, RenewsLost, TurnsAndSettles};
    ghost use Rattle.oca_web.specs.Views.{moment_noted, orders_after, stood_still};

    /// Returns a view of the device at this address, of which nothing is known. `span` and `first` are the span and the
    /// first handle of the panel's link. `now` is the present moment of the panel's end, in milliseconds; the program's
    /// clock begins there. The call sends nothing. The only refusal is `NoMemory`.
    pub fn new(
        alloc: Global,
        device: Peer,
        span: Span,
        first: Handle,
        now: u64,
    ) -> Result<View, NoMemory>
        ensures orders { IfOk result (λ view. view.orders ≡ no_orders) }
        ensures ahead { IfOk result (λ view. view.current.ahead ≡ 0) }
        ensures now { IfOk result (λ view. view.link.now ≡ now) }
    {
        Ok(View {
            device,
            span,
            current: CurrentEnd {
                first_handle: first.0,
                ahead: 0,
                sent_before: 0,
                submitted_before: 0,
            },
            next_handle: first.0,
            orders: Orders::new(),
            inventory: Inventory::new(alloc, now)?,
            link: LinkStatus {
                now,
                ..LinkStatus::default()
            },
        })
    }

    /// Returns the orders of the pages: those that wait, those in flight, and how the last ones ended.
    pub fn orders(&self) -> &Orders
        ensures { result.now ≡ self.now.orders }
    {
        &self.orders
    }

    /// Returns what is known of the device, and which questions are asked of it.
    pub fn inventory(&self) -> &Inventory {
        &self.inventory
    }

    /// Returns the device's address and port, as [`View::new`] was given them.
    pub fn device(&self) -> Peer {
        self.device
    }

    /// Returns the state of the link to the device.
    pub fn link(&self) -> LinkStatus {
        self.link
    }

    /// Returns the present moment of the program's clock, in milliseconds: the latest that was noted. It never goes back.
    pub fn moment(&self) -> u64
        ensures { result ≡ self.now.link.now }
    {
        self.link.now
    }

    /// Returns the number of commands in flight, of orders and of questions: from 0 to 64.
    pub fn in_flight(&self) -> usize {
        self.orders
            .in_flight()
            .saturating_add(self.inventory.in_flight())
    }

    /// Returns whether at least one order waits or is in flight.
    pub fn has_orders(&self) -> bool {
        self.orders.waits() || self.orders.in_flight() > 0
    }

    /// Returns the number of commands that were submitted since the view was made, over all ends.
    pub fn submitted(&self) -> u64 {
        let here = self.next_handle.saturating_sub(self.current.first_handle);
        self.current
            .submitted_before
            .saturating_add(u64::from(here))
    }

    /// Returns whether half of the handles are used, counted from the first handle of this end to the greatest handle,
    /// 4,294,967,295. Then nothing more is submitted over this end.
    pub fn is_spent(&self) -> bool {
        let used = self.next_handle.saturating_sub(self.current.first_handle);
        2 * u64::from(used) >= u64::from(u32::MAX - self.current.first_handle)
    }

    /// Returns whether the panel must go on over another end, at another port: half of the handles are used
    /// ([`is_spent`](View::is_spent)), and no command is in flight. The caller then opens the end and calls
    /// [`View::take_end`].
    pub fn wants_end(&self) -> bool {
        self.is_spent() && self.in_flight() == 0
    }

    /// Notes that the panel goes on over another end, with a new link whose first handle is `first`. `moment` is the
    /// present moment of the new end, in milliseconds of its clock. `last` is the last moment of the old end, in
    /// milliseconds of its clock, and `sent` is how many datagrams the old end sent. Returns `true` if the program was
    /// suspended for more than 2,000 ms before `last`, as [`View::note_moment`] does. Then the orders that wait end as not
    /// sent; otherwise these orders stay. What is known of the device stays.
    pub fn take_end(&mut self, first: Handle, moment: u64, last: u64, sent: u64) -> bool
        ensures now { self.new.link.now ≡ moment_noted self.old.current.ahead last self.old.link.now }
        ensures stood { result ≡ stood_still self.old.link.now self.new.link.now }
        ensures orders { self.new.orders ≡ orders_after result self.old.orders }
        ensures ahead { self.new.current.ahead ≡ self.new.link.now - moment }
    {
        let stood_still = self.note_moment(last, sent);
        self.current = CurrentEnd {
            first_handle: first.0,
            ahead: self.link.now.saturating_sub(moment),
            sent_before: self.link.sent,
            submitted_before: self.submitted(),
        };
        self.next_handle = first.0;
        stood_still
    }

    /// Notes that nothing more comes or goes over the present end. The orders in flight end as lost (they may have been
    /// carried out), and the orders that wait as not sent; soon all is asked again. The caller then opens another end
    /// and calls [`View::take_end`].
    pub fn lose_end(&mut self)
        ensures orders { self.new.orders ≡ lost_orders self.old.orders }
        ensures current { self.new.current ≡ self.old.current }
    {
        self.orders.lose();
        self.inventory.note_lost();
    }

    /// Returns by how many milliseconds the program's clock is ahead of the clock of the present end.
    pub fn ahead(&self) -> u64 {
        self.current.ahead
    }

    /// Notes that a page asked for values at the present moment, and which objects it shows: `visible` objects (a
    /// number above 512 counts as 512) from the place `first` on, which is counted from 0. Their values are then read
    /// again more often than those of other objects, for 2,500 ms.
    pub fn open(&mut self, first: usize, visible: usize)
        ensures orders { self.new.orders ≡ self.old.orders }
        ensures now { self.new.link.now ≡ self.old.link.now }
    {
        let now = self.link.now;
        self.inventory.open(now, first, visible);
    }

    /// Notes the present moment, in milliseconds of the end's clock, and how many datagrams the end sent until then.
    /// The program's clock moves to that moment, and never goes back. Returns `true` if the clock moved by more than
    /// 2,000 ms since the last note: the program was suspended. Then all waiting orders end as not sent. HTTP requests
    /// that are read after this call may have waited for an unknown time ([`Site::doubt`](crate::Site::doubt)). Returns
    /// `false` otherwise, and then no order changes.
    pub fn note_moment(&mut self, moment: u64, sent: u64) -> bool
        ensures now { self.new.link.now ≡ moment_noted self.old.current.ahead moment self.old.link.now }
        ensures stood { result ≡ stood_still self.old.link.now self.new.link.now }
        ensures orders { self.new.orders ≡ orders_after result self.old.orders }
    {
        let before = self.link.now;
        self.link.now = before.max(self.current.ahead.saturating_add(moment));
        self.link.sent = self.current.sent_before.saturating_add(sent);
        if self.link.now - before <= LONGEST_STANDSTILL_MS {
            return false;
        }
        self.orders.lose_waiting(NotDone::TooLate);
        true
    }

    /// Returns the value that a word means for the object with this number ([`value_from_word`]). The limits of the
    /// object are not checked. The result is `None` if no such object is known, its class has no value or is none of
    /// this profile, or the word means no value of the class.
    pub fn value_of_word(&self, ono: Ono, word: &str) -> Option<Value>
        ensures { IfSome result (IsForWord word.now) }
    {
        let class = self.inventory.class_of(ono)??;
        value_from_word(class, word)
    }

    /// Returns the ticket that the next order gets, as [`Orders::next_ticket`] does.
    pub fn next_ticket(&self) -> u64
        ensures { result ≡ one_more self.now.orders.tickets }
    {
        self.orders.next_ticket()
    }

    /// Adds the orders `wanted` after all others, in their order, and returns the ticket of the first. The other orders
    /// have the next tickets, in their order. `last` is the moment, in milliseconds of the program's clock, after which
    /// these orders must not be submitted. The result is `None` if there is no room for all these orders
    /// ([`Orders::has_room`]); then nothing is changed. The call submits nothing: [`View::go_on`] does.
    pub fn order_all(&mut self, wanted: &[NewOrder], last: u64) -> Option<u64>
        ensures orders { AddsAll wanted.now last self.old.orders result self.new.orders }
        ensures rest { self.new ≡ record self.old { orders = self.new.orders } }
    {
        self.orders.add_all(wanted, last)
    }

    /// Takes one turn of the panel: receives once, at a socket for at most 50 ms, and sends what is due. Then it takes
    /// the answers that came, and notes what they say: the results of orders, and what is known of the device. The only
    /// refusal is `NoMemory`: facts about the device may then be missing.
    #[tactic(auto, using(crate::proofs::StepLemmas::turn_rules))]
    pub fn take_turn<E: End>(&mut self, panel: &mut Panel<E>) -> Result<(), NoMemory>
        ensures orders { TurnsAndSettles self.old.orders panel.old self.new.orders panel.new }
        ensures current { self.new.current ≡ self.old.current }
    {
        let heard_before = panel.last_heard();
        let report = panel.turn_with_report();
        let heard = panel.last_heard();
        self.link.keep_alives = self.link.keep_alives.saturating_add(report.keep_alives);
        self.inventory.note_silence(
            self.current.ahead.saturating_add(heard_before),
            self.link.now,
        );
        // Before the device is heard, `last_heard` is the moment when the link was made.
        if heard != heard_before {
            self.link.heard = Some(self.current.ahead.saturating_add(heard));
            self.link.lost_since = None;
        }
        let settled = settle_orders(&mut self.orders, panel);
        self.inventory.learn_orders(settled.as_slice())?;
        self.inventory.take_answers(panel)
    }

    /// Does what must be done after a turn, and sends commands at once. If the link is lost or late, the orders in
    /// flight end as lost and the waiting orders as not sent, a new link begins, and all is asked again. Orders whose
    /// last moment has passed, or whose object is not the one that their page showed, end as not sent; the other waiting
    /// orders are submitted, each as soon as the device, asked behind the order, confirmed what its page showed. Then
    /// questions are submitted, as far as there is room: first those on which orders wait. Nothing is submitted once
    /// half of the handles are used. The only refusal is `NoMemory`: facts about the device may then be missing.
    #[tactic(auto, using(crate::proofs::StepLemmas::continues))]
    pub fn go_on<E: End>(&mut self, panel: &mut Panel<E>) -> Result<(), NoMemory>
        ensures orders { Continues self.old.device self.old.span self.old.next_handle self.old.current.ahead
            self.old.inventory.objects.list.items self.old.orders panel.old self.new.orders panel.new }
        ensures current { self.new.current ≡ self.old.current }
    {
        self.renew_if_lost(panel);
        self.end_unsent();
        self.submit_waiting(panel);
        self.ask_all(panel)
    }

    /// If the link is lost or late, ends all orders and begins another link, over which all is asked again. Its first
    /// handle is the view's next one, but no lower than the one that the next command of the old link would get.
    fn renew_if_lost<E: End>(&mut self, panel: &mut Panel<E>)
        ensures orders { RenewsLost self.old.device self.old.span self.old.next_handle self.old.orders panel.old
            self.new.orders panel.new }
        ensures objects { self.new.inventory.objects ≡ self.old.inventory.objects }
        ensures now { self.new.link.now ≡ self.old.link.now }
        ensures current { self.new.current ≡ self.old.current }
    {
        if !lose_orders(&mut self.orders, panel) {
            return;
        }
        let first = match panel.next_handle() {
            Some(handle) => handle.0.max(self.next_handle),
            None => self.next_handle,
        };
        panel.renew(self.device, Handle(first), self.span);
        self.link.lost = self.link.lost.saturating_add(1);
        self.link.lost_since = self.link.lost_since.or(Some(self.link.now));
        self.inventory.note_lost();
    }

    /// Ends the orders that must not be sent any more: their last moment has passed, their object is not the one that
    /// their page showed, or the device refused to say so.
    #[tactic(auto, using(crate::proofs::StepLemmas::ending_rules))]
    fn end_unsent(&mut self)
        ensures orders { EndsUnsent self.old.orders self.new.orders }
        ensures rest { self.new ≡ record self.old { orders = self.new.orders } }
    {
        let mut at = 0usize;
        for _order in 0..256u32 {
            let Some(order) = self.orders.waiting_at(at) else {
                return;
            };
            match self.inventory.reason_to_end(&order, self.link.now) {
                Some(reason) => self.orders.end_at(at, reason),
                None => at = at.saturating_add(1),
            }
        }
    }

    /// Submits the orders that wait, as far as [`submit_orders`] may, unless half of the handles are used.
    #[tactic(auto, using(crate::proofs::StepLemmas::submit_rules))]
    fn submit_waiting<E: End>(&mut self, panel: &mut Panel<E>)
        ensures orders { SubmitsOrders self.old.current.ahead self.old.inventory.objects.list.items self.old.orders panel.old
            self.new.orders panel.new }
        ensures current { self.new.current ≡ self.old.current }
    {
        if self.is_spent() {
            return;
        }
        let known = self.inventory.objects().as_slice();
        submit_orders(&mut self.orders, known, panel, self.current.ahead);
        self.next_handle = self.next_handle.max(self.orders.next_handle());
    }

    /// Submits questions: first those on which orders wait, then the rest, as far as there are handles for them.
    #[tactic(auto, using(crate::proofs::StepLemmas::question_rules))]
    fn ask_all<E: End>(&mut self, panel: &mut Panel<E>) -> Result<(), NoMemory>
        ensures panel { AsksQuestions panel.old panel.new }
        ensures orders { self.new.orders ≡ self.old.orders }
        ensures current { self.new.current ≡ self.old.current }
    {
        self.inventory.begin_again()?;
        self.ask_for_orders(panel);
        for _ in 0..MOST_QUESTIONS {
            if !self.may_ask() || self.handles_in_use() >= self.handles_for_questions() {
                return Ok(());
            }
            let Some(question) = self.inventory.next_question(self.link.now) else {
                return Ok(());
            };
            if !self.submit_question(panel, question) {
                return self.inventory.ask_again(question);
            }
        }
        Ok(())
    }

    /// Whether another question can be in flight, and handles are left for it.
    fn may_ask(&self) -> bool {
        self.inventory.in_flight() < MOST_QUESTIONS && !self.is_spent()
    }

    /// The distance from the lowest handle in flight to the next one.
    fn handles_in_use(&self) -> u32 {
        let next = self.next_handle;
        let lowest = self
            .inventory
            .lowest_handle(next)
            .min(self.orders.lowest_handle(next));
        next.saturating_sub(lowest)
    }

    /// How far questions may take handles: over the whole span while all objects are read and nothing is ordered,
    /// otherwise over half of it.
    fn handles_for_questions(&self) -> u32 {
        let span = u32::from(self.span.get());
        if self.inventory.reads_all() && !self.has_orders() {
            span
        } else {
            span.div_ceil(2)
        }
    }

    /// Asks what the first orders wait for: what their pages showed and the device did not confirm just now.
    #[tactic(auto, using(crate::proofs::StepLemmas::question_rules))]
    fn ask_for_orders<E: End>(&mut self, panel: &mut Panel<E>)
        ensures panel { AsksQuestions panel.old panel.new }
        ensures orders { self.new.orders ≡ self.old.orders }
        ensures current { self.new.current ≡ self.old.current }
    {
        for at in 0..MOST_QUESTIONS {
            let Some(order) = self.orders.waiting_at(at) else {
                return;
            };
            let unconfirmed = self.inventory.unconfirmed_for(&order, self.link.now);
            for question in unconfirmed.as_slice() {
                if !self.may_ask() || !self.submit_question(panel, *question) {
                    return;
                }
            }
        }
    }

    /// Submits a question, unless it is about no object. Returns whether the panel took it.
    #[tactic(auto, using(crate::proofs::StepLemmas::question_rules))]
    fn submit_question<E: End>(&mut self, panel: &mut Panel<E>, question: Question) -> bool
        ensures panel { AsksQuestions panel.old panel.new }
        ensures orders { self.new.orders ≡ self.old.orders }
        ensures current { self.new.current ≡ self.old.current }
    {
        let Some((ono, class)) = self.inventory.target_of(question.place) else {
            return true;
        };
        match ask_one(panel, ono, class, question.property) {
            Some(handle) => {
                self.note_submitted(handle, question);
                true
            }
            None => false,
        }
    }

    /// Notes that a question was submitted under this handle at the present moment. The next link begins above it.
    fn note_submitted(&mut self, handle: Handle, question: Question)
        ensures kept { KeepsQuestion handle question self.old.link.now self.old.inventory.pending.items
            self.new.inventory.pending.items }
        ensures orders { self.new.orders ≡ self.old.orders }
        ensures current { self.new.current ≡ self.old.current }
    {
        self.next_handle = self.next_handle.max(handle.0.saturating_add(1));
        self.inventory.note_asked(handle, question, self.link.now);
    }

    /// Returns the moment of the program's clock from which the next round of reads may begin, which can already be
    /// past. The result is `None` if no page is open, or a walk or a round has not ended: it goes on when an answer
    /// comes.
    pub fn next_moment(&self) -> Option<u64> {
        self.inventory.next_moment(self.link.now)
    }
}
