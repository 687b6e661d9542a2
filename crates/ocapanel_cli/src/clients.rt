//! The browsers: the listener and at most 128 connections, none of which is waited for alone.
use http_server::{Config, Connection};
use mio::net::{TcpListener, TcpStream};
use mio::unix::SourceFd;
use mio::{Events, Interest, Poll, Token};
use oca_program::{Failure, RunFault};
use oca_types::Peer;
use oca_web::Site;
use std::alloc::Global;
use std::hash::RandomState;
use std::io;
use std::net::{Net, SocketAddr, SocketAddrV4};
use std::os::fd::RawFd;
use std::random::RandomSource;
use std::time::Duration;

/// The token of the listener.
const LISTENER: Token = Token(0);

/// The token of the device's socket, below those of the connections.
const DEVICE: Token = Token(1);

/// The most connections at once.
const MOST_CLIENTS: usize = 128;

/// The largest body of a request, in bytes.
const MOST_BODY: usize = 16_384;

/// A connection on which nothing moved is closed after so many milliseconds.
const IDLE_MS: u64 = 30_000;

/// A connection with no request on it gives way to another one after so many milliseconds.
const RESTING_MS: u64 = 1_000;

/// A request that is not whole, or an answer that is not taken, after so many milliseconds closes its connection.
const SLOW_MS: u64 = 5_000;

/// How often a connection is read and written before the others have their turn.
const ROUNDS: u32 = 8;

/// The connection of a browser. Moments are in milliseconds.
#[derive(Drop)]
struct Client {
    stream: TcpStream,
    http: Connection,
    token: Token,
    /// Whether there may be something to read or to write.
    ready: bool,
    /// When something moved last.
    moved: u64,
    /// Since when a request is begun that is not whole.
    begun: Option<u64>,
    /// Since when an answer waits that is not taken.
    untaken: Option<u64>,
    /// Whether what waits on it may have come while the program was suspended.
    doubts: bool,
    /// Whether a request on it was let in so far.
    is_known: bool,
}

/// Why a connection is closed: all was said, or it failed.
struct Over;

/// How many bytes a read or a write moved; `None` if it would have to wait.
fn moved(done: io::Result<usize>) -> Result<Option<usize>, Over> {
    match done {
        Ok(count) => Ok(Some(count)),
        Err(error) if error.kind() == io::ErrorKind::WouldBlock => Ok(None),
        Err(_) => Err(Over),
    }
}

/// Whether more than so many milliseconds passed since this moment.
fn is_past(since: Option<u64>, most: u64, now: u64) -> bool {
    since.is_some_and(|since| since.saturating_add(most) < now)
}

impl Client {
    /// Reads, answers and writes once, as far as it wants to. Returns whether something moved.
    fn step(&mut self, site: &mut Site, now: u64) -> Result<bool, Over> {
        let mut has_moved = false;
        if self.http.wants_read() && moved(self.http.read_from(&mut self.stream))?.is_some() {
            self.begun = self.begun.or(Some(now));
            has_moved = true;
        }
        let (calls, admitted) = (site.calls(), site.admitted());
        self.http.advance(site);
        if site.calls() != calls {
            self.begun = None;
            self.untaken = None;
        }
        self.is_known = self.is_known || site.admitted() != admitted;
        if self.http.wants_write() {
            match moved(self.http.write_to(&mut self.stream))? {
                Some(0) => return Err(Over),
                Some(_) => has_moved = true,
                None => self.untaken = self.untaken.or(Some(now)),
            }
            if !self.http.wants_write() {
                self.untaken = None;
            }
        }
        if self.http.is_done() {
            return Err(Over);
        }
        Ok(has_moved)
    }

    /// Where it is ready, reads, answers and writes as long as something moves, until an order was taken or the others
    /// have their turn. Returns whether there may be more to do. Where it waits and has read all, nothing on it is from
    /// the time of a stop: an answer that is not taken keeps it from reading.
    fn serve(&mut self, site: &mut Site, now: u64) -> Result<bool, Over> {
        if !self.ready {
            return Ok(false);
        }
        let ticket = site.view().next_ticket();
        site.doubt(self.doubts);
        for _ in 0..ROUNDS {
            if site.view().next_ticket() != ticket {
                break;
            }
            self.ready = self.step(site, now)?;
            if !self.ready {
                break;
            }
            self.moved = now;
        }
        self.doubts = self.doubts && (self.ready || !self.http.wants_read());
        Ok(self.ready)
    }

    /// Whether it is too slow, or idle for too long.
    fn is_late(&self, now: u64) -> bool {
        is_past(Some(self.moved), IDLE_MS, now)
            || is_past(self.begun, SLOW_MS, now)
            || is_past(self.untaken, SLOW_MS, now)
    }

    /// Whether there is no request on it, and was none for a while.
    fn rests(&self, now: u64) -> bool {
        self.begun.or(self.untaken).is_none() && is_past(Some(self.moved), RESTING_MS, now)
    }
}

/// The listener, the connections of browsers, and the wait for them and for the device's socket.
#[derive(Drop)]
pub struct Clients {
    alloc: Global,
    listener: TcpListener,
    poll: Poll,
    events: Events,
    clients: Vec<Client>,
    /// The number of the newest connection's token.
    tokens: usize,
    /// Whether a connection may have more to do at once: then the loop must not wait.
    pub has_more: bool,
    /// Whether the program was suspended, and connections that came meanwhile may still wait.
    pub doubts: bool,
}

impl Clients {
    /// Listens for browsers at this address. The device's socket is waited for, too. Failures: `Socket` if the system
    /// refuses the listener or the wait, `NoMemory` if memory was refused.
    pub fn listen<H: Net>(
        alloc: Global,
        host: &H,
        at: Peer,
        socket: RawFd,
    ) -> Result<Clients, Failure> {
        let address = SocketAddr::V4(SocketAddrV4::from(at));
        let mut listener = TcpListener::bind(host, address).map_err(|reason| {
            Failure::with_note(RunFault::Socket, format!(in alloc; "{at}: {reason}"))
        })?;
        let poll = poll_of(host, &mut listener, socket).map_err(|reason| system_failure(
            alloc, reason,
        ))?;
        Ok(Clients {
            alloc,
            listener,
            poll,
            events: Events::with_capacity(alloc, 32)?,
            clients: Vec::new(alloc),
            tokens: DEVICE.0,
            has_more: false,
            doubts: false,
        })
    }

    /// Where browsers are listened to that was to be at `asked`: with the port that the system chose.
    pub fn local(&self, asked: Peer) -> Peer {
        let port = match self.listener.local_addr() {
            Ok(address) => address.port(),
            Err(_) => asked.port,
        };
        Peer { port, ..asked }
    }

    /// Makes [`wait`](Clients::wait) also wait for this socket, another one for the device.
    pub fn watch(&mut self, socket: RawFd) -> Result<(), Failure> {
        watch(&self.poll, socket).map_err(|reason| system_failure(self.alloc, reason))
    }

    /// Waits until something can be read or written, at most `most` milliseconds.
    pub fn wait(&mut self, most: u64) -> Result<(), Failure> {
        self.poll
            .poll(&mut self.events, Some(Duration::from_millis(most)))
            .map_err(|reason| system_failure(self.alloc, reason))?;
        for event in self.events.iter() {
            let token = event.token().0;
            let found = self
                .clients
                .binary_search_by_key(&token, |client| client.token.0);
            if let Ok(place) = found
                && let Some(client) = self.clients.get_mut(place)
            {
                client.ready = true;
            }
        }
        Ok(())
    }

    /// Lets the browsers in that wait, at the moment `now`, in milliseconds of the program's clock. Then reads, answers
    /// by `site` and writes on each connection that is ready, and closes those that ended or are late. A connection is
    /// late if nothing moved on it for more than 30,000 ms. It is also late if a request is not whole, or an answer is
    /// not taken, for more than 5,000 ms. The beginning of a request that was read together with the end of the request
    /// before does not count: 5,000 ms begin with the next byte. A new connection counts as one whose request is begun:
    /// it is late 5,000 ms after its beginning even if no byte came.
    pub fn serve<H: RandomSource>(&mut self, host: &H, site: &mut Site, now: u64) {
        if self.doubts {
            for client in self.clients.iter_mut() {
                client.doubts = true;
                client.ready = true;
            }
        }
        self.accept(host, now);
        let mut has_more = false;
        self.clients.retain_mut(|client| match client.serve(site, now) {
            Ok(more) => {
                has_more = has_more || more;
                !client.is_late(now)
            }
            Err(Over) => false,
        });
        self.has_more = has_more;
    }

    /// Lets the browsers in that wait. Nothing is from the time of a stop once no more do. A new connection is closed
    /// if there is no place for it, if the system refuses random keys or the wait for it, or if memory was refused; a
    /// connection that was closed for it stays closed.
    fn accept<H: RandomSource>(&mut self, host: &H, now: u64) {
        for _ in 0..16u32 {
            let Ok((mut stream, _)) = self.listener.accept() else {
                self.doubts = false;
                return;
            };
            let Ok(keys) = RandomState::new(host) else {
                continue;
            };
            if !self.make_room(now) {
                continue;
            }
            self.tokens = self.tokens.saturating_add(1);
            let token = Token(self.tokens);
            let _ = stream.set_nodelay(true);
            let registry = self.poll.registry();
            let both = Interest::READABLE | Interest::WRITABLE;
            if registry.register(&mut stream, token, both).is_err() {
                continue;
            }
            let config = Config {
                max_body_len: MOST_BODY,
                ..Config::default()
            };
            drop(
                self.clients.push(Client {
                    stream,
                    http: Connection::new(self.alloc, keys, config),
                    token,
                    ready: true,
                    moved: now,
                    begun: Some(now),
                    untaken: None,
                    doubts: self.doubts,
                    is_known: false,
                }),
            );
        }
    }

    /// Makes room for a new connection, and returns whether there is room then. If there are 128 connections, one of
    /// them is closed: the oldest one on which no request was admitted so far (admitted: with the right host and token).
    /// If there is no such connection, it is the first on which no request is begun and nothing moved for more than
    /// 1,000 ms.
    fn make_room(&mut self, now: u64) -> bool {
        if self.clients.len() < MOST_CLIENTS {
            return true;
        }
        let unknown = self.clients.iter().position(|client| !client.is_known);
        let resting = self.clients.iter().position(|client| client.rests(now));
        match unknown.or(resting) {
            Some(place) if place < self.clients.len() => {
                drop(self.clients.remove(place));
                true
            }
            _ => false,
        }
    }
}

/// A wait for the listener and the device's socket.
fn poll_of<H: Net>(host: &H, listener: &mut TcpListener, socket: RawFd) -> io::Result<Poll> {
    let poll = Poll::new(host)?;
    poll.registry()
        .register(listener, LISTENER, Interest::READABLE)?;
    watch(&poll, socket)?;
    Ok(poll)
}

/// Makes the wait also wait for the device's socket.
fn watch(poll: &Poll, socket: RawFd) -> io::Result<()> {
    let mut source = SourceFd(&socket);
    poll.registry()
        .register(&mut source, DEVICE, Interest::READABLE)
}

/// The failure of a run in which a call of the system failed for this reason.
fn system_failure(alloc: Global, reason: io::Error) -> Failure {
    if reason.kind() == io::ErrorKind::OutOfMemory {
        return Failure::from(RunFault::NoMemory);
    }
    Failure::with_note(RunFault::Socket, format!(in alloc; "{reason}"))
}
