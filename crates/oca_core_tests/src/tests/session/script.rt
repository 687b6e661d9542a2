//! Scripts of events, each with what it must answer, and what a device does with commands by what its sessions say.
use crate::tests::answers::{Answer, reply};
use crate::tests::{Agrees, Row, Said, plays, sizes};
use arrayvec::ArrayVec;
use oca_session::{Admission, Judged, Sessions};
use oca_types::{Command, Handle, MOST_PEERS, MethodId, Ono, Peer, Reply, Status, Window};
use std::alloc::Global;

/// What a device does with a command.
#[derive(Clone, Copy, Debug, PartialEq, Eq)]
pub enum Served {
    Executed,
    /// A duplicate got the reply with this ParamCount.
    Kept(u8),
    /// A duplicate got a reply whose parameter is not that of its ParamCount.
    Mixed,
    Reused,
    Old,
    /// The peer has no session.
    Stranger,
    /// The command has more parameter bytes than a datagram brings.
    TooLong,
}

/// An event, and what it must answer.
#[derive(Clone, Copy)]
pub enum Step {
    /// A peer is heard at a moment.
    Hears(Peer, u64, Admission),
    /// A peer that is known sets its heartbeat.
    Beats(Peer, u64),
    /// A peer sends a command.
    Serves(Peer, Command<'static>, Served),
    /// A peer sends the command of a handle, which is executed with this answer.
    Executes(Peer, u32, Answer),
    /// A peer sends the command of a handle again, and gets this answer.
    Retains(Peer, u32, Answer),
    /// At a moment `advance` says that these peers are silent.
    Silent(u64, &'static [Peer]),
    /// At a moment `advance_into` says that these peers are silent. One list is handed to all such calls of a script.
    SilentInto(u64, &'static [Peer]),
    /// There are so many sessions.
    Len(usize),
    /// A peer has a session, or none.
    IsKnown(Peer, bool),
    /// This is the present moment.
    Moment(u64),
    /// A session is forgotten from this moment on.
    ForgottenFrom(Option<u64>),
    /// A peer is silent from this moment on.
    LapsedFrom(Peer, Option<u64>),
}

use Step::*;

/// The sessions of a script.
#[derive(Clone, Copy)]
pub enum Made {
    /// Those of a device whose sizes nobody chose: windows of 32, and room for 16.
    Plain,
    /// With windows of this size and room for 16.
    WindowsOf(u8),
    /// With windows of 1 and room for so many.
    RoomFor(u8),
}

/// A script by its name.
pub struct Script(pub &'static str, pub Made, pub &'static [Step]);

/// Judges a command, and keeps it with this reply where it is fresh.
fn serve_with(sessions: &mut Sessions, peer: Peer, command: &Command<'_>, reply: &Reply) -> Served {
    if !sessions.is_known(peer) {
        return Served::Stranger;
    }
    if command.params.len() > 1_445 {
        return Served::TooLong;
    }
    let judged = sessions.judge(peer, command);
    // A judgement can be copied: it holds no reply.
    let copied = judged;
    if let Judged::Old = copied {
        return Served::Old;
    }
    match judged {
        Judged::Fresh => {
            sessions.keep(peer, command, reply);
            Served::Executed
        }
        Judged::Kept(kept) if kept.params.as_slice() == [kept.count].as_slice() => Served::Kept(
            kept.count,
        ),
        Judged::Kept(_) => Served::Mixed,
        Judged::Reused => Served::Reused,
        Judged::Old => Served::Old,
    }
}

/// Judges a command, and keeps it where it is fresh, with a reply whose ParamCount and parameter tell it.
fn serve(sessions: &mut Sessions, peer: Peer, command: &Command<'_>) -> Served {
    let mark = (command.handle.0 % 256) as u8;
    serve_with(sessions, peer, command, &reply(Status::Ok, mark, &[mark]))
}

/// Whether the command of a handle is a duplicate that gets this answer.
fn retains(sessions: &Sessions, peer: Peer, handle: u32, answer: Answer, said: &mut Said) -> bool {
    if !sessions.is_known(peer) {
        return false;
    }
    match sessions.judge(peer, &command!(handle)) {
        Judged::Kept(reply) => {
            said.same(reply.status, answer.status)
                && said.same(reply.count, answer.count)
                && said.same(reply.params.as_slice(), answer.params)
        }
        _ => false,
    }
}

/// Whether the event changes the sessions, and is answered so.
fn is_answered(sessions: &mut Sessions, step: Step, said: &mut Said) -> bool {
    match step {
        Hears(peer, moment, answer) => said.same(sessions.hear(peer, moment), answer),
        Beats(peer, ms) if sessions.is_known(peer) => {
            sessions.beat(peer, ms);
            true
        }
        Serves(peer, command, answer) => said.same(serve(sessions, peer, &command), answer),
        Executes(peer, handle, answer) => {
            let reply = reply(answer.status, answer.count, answer.params);
            said.same(
                serve_with(sessions, peer, &command!(handle), &reply),
                Served::Executed,
            )
        }
        Silent(moment, peers) => said.same(sessions.advance(moment).as_slice(), peers),
        _ => false,
    }
}

/// The sessions, and the list that the calls of `advance_into` are handed.
#[derive(Drop)]
struct Heard {
    sessions: Sessions,
    silent: ArrayVec<Peer, MOST_PEERS>,
}

impl Agrees<Heard> for Step {
    /// Whether the event is answered so, or the sessions stand so.
    fn agrees(&self, on: &mut Heard, said: &mut Said) -> bool {
        let sessions = &mut on.sessions;
        match *self {
            SilentInto(moment, peers) => {
                sessions.advance_into(moment, &mut on.silent);
                said.same(on.silent.as_slice(), peers)
            }
            Retains(peer, handle, answer) => retains(sessions, peer, handle, answer, said),
            Len(count) => said.same(sessions.len(), count)
                && said.same(sessions.is_empty(), count == 0),
            IsKnown(peer, answer) => said.same(sessions.is_known(peer), answer),
            Moment(moment) => said.same(sessions.moment(), moment),
            ForgottenFrom(moment) => said.same(sessions.forgotten_from(), moment),
            LapsedFrom(peer, moment) => said.same(sessions.lapsed_from(peer), moment),
            other => is_answered(sessions, other, said),
        }
    }
}

/// No session yet.
fn sessions(alloc: Global, made: Made) -> Option<Sessions> {
    match made {
        Made::Plain => Sessions::new(alloc, Window::default()).ok(),
        Made::WindowsOf(size) => Sessions::new(alloc, Window::new(size)?).ok(),
        Made::RoomFor(count) => Sessions::with_sizes(alloc, sizes(count)?).ok(),
    }
}

impl Row for Script {
    /// Whether each event is answered so.
    fn agrees(&self, said: &mut Said) -> bool {
        let Some(sessions) = sessions(said.alloc, self.1) else {
            return false;
        };
        let mut on = Heard {
            sessions,
            silent: ArrayVec::new(),
        };
        plays(&mut on, self.0, self.2, said)
    }
}
