//! The loop: one thread waits for the device's socket, the listener and the browsers' connections at once.
use crate::clients::Clients;
use crate::command::Options;
use crate::console::Console;
use crate::ready::Ready;
use oca_net::{End, UdpEnd, is_gone};
use oca_panel::{LocalPort, Panel, Reached, Watched};
use oca_program::socket::reach_device;
use oca_program::{Failure, print_made_note, print_note};
use oca_script::Sink;
use oca_types::NoMemory;
use oca_web::Site;
use std::net::{Ipv4Addr, Net};
use std::os::fd::AsRawFd;
use std::random::RandomSource;
use std::rt::{Clock, Files};

/// The most turns that are taken before the browsers have theirs.
const MOST_TURNS: u32 = 256;

/// After a receive that failed, so many milliseconds are waited at least, unless a browser comes: what is due was not
/// sent.
const FAILED_WAIT_MS: u64 = 50;

/// The answer to an order is waited for so many milliseconds at most before requests are answered again.
const ANSWER_MS: u64 = 8;

/// The longest wait, in milliseconds: as often, connections on which nothing moves are looked at.
const LONGEST_WAIT_MS: u64 = 1000;

/// What is received from and sent to: a socket for the device.
pub type DeviceEnd<'c, N> = Ready<Watched<UdpEnd<'c, N>>>;

/// The loop over the device's socket, the listener and the browsers' connections.
#[derive(Drop)]
pub struct EventLoop<'r, 'c, R, N: Clock, W: Sink, F: Sink> {
    pub console: &'r mut Console<'c, R, N, W, F>,
    pub options: &'r Options<'r>,
    pub panel: &'r mut Panel<DeviceEnd<'c, N>>,
    pub clients: Clients,
    pub site: Site,
    /// The address of the socket for the device.
    pub ip: u32,
    /// How many links were lost when the way to the device was looked at last.
    pub losses: u64,
    /// Whether it was printed last that the device is lost.
    pub was_lost: bool,
    /// The ticket of the next order, and until when the browsers wait for the answer to the last one.
    pub ticket: u64,
    pub held_until: u64,
}

impl<'c, R: Net + RandomSource + Files, N: Net + Clock, W: Sink, F: Sink> EventLoop<
    '_,
    'c,
    R,
    N,
    W,
    F,
> {
    /// Serves the device and the browsers, and waits, over and over. Goes on over another socket for the device if the
    /// handles of this one are used up, or if the link was lost and the system reaches the device from another address.
    pub fn run(&mut self) -> Result<(), Failure> {
        for _ in 0..u64::MAX {
            let wait = self.run_once()?;
            self.clients.wait(wait)?;
            if self.site.view().wants_end() {
                let (console, way) = (&mut *self.console, self.options.way(LocalPort::Given(0)));
                let reached = reach_device(
                    console.alloc,
                    console.system,
                    way,
                    false,
                    console.faults,
                )?;
                self.change_socket(reached)?;
            }
            let losses = self.site.view().link().lost;
            if self.losses != losses {
                self.losses = losses;
                self.follow_address()?;
            }
        }
        Ok(())
    }

    /// If the system reaches the device from another address by now, goes on from there. What is in flight then is
    /// lost, and never sent again.
    fn follow_address(&mut self) -> Result<(), Failure> {
        let Some(reached) = self.reach_elsewhere() else {
            return Ok(());
        };
        if self.options.verbose {
            let (alloc, ip) = (self.console.alloc, reached.end.end().local().ip);
            let ip = Ipv4Addr::from(ip);
            let note = format!(in alloc; "the device is reached from the address {ip} now");
            print_made_note(note, self.console.faults);
        }
        self.site.view().lose_end();
        self.change_socket(reached)
    }

    /// A socket for the device at another address of this machine. `None` if the system reaches the device from the
    /// same address as before, or gives no socket.
    fn reach_elsewhere(&self) -> Option<Reached<'c, N>> {
        let way = self.options.way(LocalPort::Given(self.options.port));
        let reached = way.reach(self.console.alloc, self.console.system).ok()?;
        if reached.end.end().local().ip == self.ip {
            return None;
        }
        Some(reached)
    }

    /// Goes on over another socket for the device, with a new link, which lies in this function's frame alone, some 94
    /// kB. The time until now is counted by the clock of the socket before. The new one's moment is taken first: so a
    /// stop between the two is counted, if need be twice.
    #[inline(never)]
    fn change_socket(&mut self, reached: Reached<'c, N>) -> Result<(), Failure> {
        let Reached { end, first, .. } = reached;
        let (moment, socket) = (end.now(), end.end().as_raw_fd());
        self.ip = end.end().local().ip;
        let (last, sent) = (self.panel.end().end().now(), self.panel.end().sent);
        if self.site.view().take_end(first, moment, last, sent) {
            self.clients.doubts = true;
        }
        let (device, span) = (self.options.device, self.options.span);
        *self.panel = Panel::open(device, Ready::new(end), first, span, 0);
        self.clients.watch(socket)
    }

    /// Serves the device and the browsers as far as is possible without a wait. Returns how long may be waited then, in
    /// milliseconds.
    fn run_once(&mut self) -> Result<u64, NoMemory> {
        let drained = self.drain()?;
        self.print_link_change();
        self.advance_clock();
        let now = self.site.view().moment();
        if !self.awaits_answer(now) {
            self.clients.serve(self.console.host, &mut self.site, now);
            let ticket = self.site.view().next_ticket();
            if self.ticket != ticket {
                self.ticket = ticket;
                self.held_until = now.saturating_add(ANSWER_MS);
            }
        }
        self.site.view().go_on(self.panel)?;
        Ok(if drained { self.wait_time(now) } else { 0 })
    }

    /// Receives what came from the device, and sends what is due, in at most 256 turns. Returns whether nothing more is
    /// there.
    fn drain(&mut self) -> Result<bool, NoMemory> {
        for _ in 0..MOST_TURNS {
            self.advance_clock();
            self.site.view().take_turn(self.panel)?;
            self.site.view().go_on(self.panel)?;
            if self.panel.end().is_quiet {
                return Ok(true);
            }
        }
        Ok(false)
    }

    /// Sets the view's clock to the present moment. If that shows that the program was suspended, requests that wait
    /// have an unknown age.
    fn advance_clock(&mut self) {
        let end = self.panel.end();
        if self.site.view().note_moment(end.end().now(), end.sent) {
            self.clients.doubts = true;
        }
    }

    /// How long may be waited for the device or a browser, in milliseconds.
    fn wait_time(&mut self, now: u64) -> u64 {
        let mut moment = now.saturating_add(LONGEST_WAIT_MS);
        if self.awaits_answer(now) {
            moment = self.held_until;
        } else if self.clients.has_more {
            return 0;
        }
        let view = self.site.view();
        if let Some(due) = self.panel.next_due() {
            moment = moment.min(due.saturating_add(view.ahead()));
        }
        if let Some(next) = view.next_moment() {
            moment = moment.min(next);
        }
        if self.panel.end().has_failed {
            moment = moment.max(now.saturating_add(FAILED_WAIT_MS));
        }
        moment.saturating_sub(now)
    }

    /// Whether the browsers wait for the answer to an order that was taken just now, so that a browser that asks right
    /// behind it is shown how it ended.
    fn awaits_answer(&mut self, now: u64) -> bool {
        now < self.held_until && self.site.view().has_orders()
    }

    /// If `--verbose` is given, prints when the device is lost, with the local address if the machine has lost that, and
    /// when it is heard again.
    fn print_link_change(&mut self) {
        let link = self.site.view().link();
        let is_lost = link.lost_since.is_some();
        if !self.options.verbose || is_lost == self.was_lost {
            return;
        }
        self.was_lost = is_lost;
        let (alloc, host, ip) = (self.console.alloc, self.console.host, self.ip);
        let faults = &mut *self.console.faults;
        if is_lost {
            print_note(
                "the device is lost: a command got no answer for 5 s",
                faults,
            );
            if is_gone(host, ip) {
                let ip = Ipv4Addr::from(ip);
                print_made_note(format!(in alloc; "the address {ip} is gone"), faults);
            }
        } else {
            let lost = link.lost;
            let note = format!(in alloc;
                "the device is heard again; {lost} sessions were lost so far"
            );
            print_made_note(note, faults);
        }
    }
}
