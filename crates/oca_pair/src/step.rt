//! The steps of a schedule.
use oca_tree::Value;
use oca_types::{Handle, MethodId, Ono, Peer, Span};

/// A step of a *schedule*, which is a list of steps of one device and some links. A step submits a command, asks a link
/// what is due, delivers a datagram, takes an answer, renews a link, sends a keep-alive beside a link, moves the
/// device's clock, or changes an object at the device's local front panel.
///
/// Links and datagrams are named by their number, from 0: links in the order of the starts, datagrams in the order in
/// which they were sent. Datagrams to the device and datagrams to links are counted apart. A datagram can be delivered
/// any number of times, in any order, or never. `now` is a moment in milliseconds.
#[derive(Clone, Copy, Debug)]
pub enum Step<'a> {
    /// A command is submitted to a link. `count` is ParamCount, and `params` are the bytes of the parameters (AES70-3).
    Submit {
        link: usize,
        target: Ono,
        method: MethodId,
        count: u8,
        params: &'a [u8],
        now: u64,
    },
    /// A link is asked what is due, once, and that is sent to the device.
    Due {
        link: usize,
        now: u64,
    },
    /// The datagram number `k` of those that were sent to the device is delivered to the device, for the first time or
    /// again. Its answers are sent to the link.
    ToDevice {
        k: usize,
        now: u64,
    },
    /// The datagram number `k` of those that were sent to links is delivered to its link, for the first time or again.
    ToLink {
        k: usize,
        now: u64,
    },
    /// Any bytes come to the device from a peer that is no link's. The device's answers to them are dropped.
    Other {
        from: Peer,
        bytes: &'a [u8],
        now: u64,
    },
    /// The device's clock moves on to `now`.
    Tick {
        now: u64,
    },
    /// An object is set at the local front panel. The step has no moment: it happens at the moment of the device's
    /// clock. So do the next four steps.
    Local {
        ono: Ono,
        value: Value,
    },
    /// An object gets a label at the local front panel.
    Label {
        ono: Ono,
        label: &'a str,
    },
    /// An object is enabled or disabled at the local front panel.
    Enable {
        ono: Ono,
        enabled: bool,
    },
    /// The lock of an object is released at the local front panel, whichever peer has it.
    Unlock {
        ono: Ono,
    },
    /// The hardware of an object refuses changes from now on (`failing`), or no longer does.
    Fail {
        ono: Ono,
        failing: bool,
    },
    /// A link is asked for the answer to the command with this handle, which it then no longer has.
    Take {
        link: usize,
        handle: Handle,
    },
    /// A link is *renewed*: a new link to the device, with the same address and port, takes its place under its number.
    /// It has this span, is made at `now`, and its first command gets the handle `first`. It has none of the commands
    /// and answers of the old link, but datagrams that were sent for those can still be delivered. If `first` is lower
    /// than the handle that the next command of the old link would get, or that link has no handle left, nothing
    /// changes.
    Renew {
        link: usize,
        first: Handle,
        span: Span,
        now: u64,
    },
    /// A keep-alive with a heartbeat of 5 seconds (AES70-3) is sent to the device from the address and port of a link,
    /// without the link: the link stays as it is. `now` is the moment at which it leaves.
    Beside {
        link: usize,
        now: u64,
    },
}
