//! What a step of a network led to.
use oca_control::{Answer, ControlFault, Reception};
use oca_device::Verdict;
use oca_tree::{FrontFault, SetFault};
use oca_types::Handle;

/// What a step of a schedule led to ([`Step`](crate::Step)).
#[derive(Debug, Drop)]
pub enum Outcome {
    /// `Submit`: the link took the command, under this handle.
    Submitted(Handle),
    /// `Submit`: the link refused the command, for this fault.
    Refused(ControlFault),
    /// `Due`: the link sent a command or a keep-alive. `Beside`: a keep-alive was sent beside the link. It is the
    /// datagram of this number, from 0, of those that were sent to the device.
    Sent(usize),
    /// `Due`: nothing was due.
    Nothing,
    /// `Due`: the link is lost, and sent nothing.
    Lost,
    /// `ToDevice` or `Other`: what the device made of the datagram.
    Device(Verdict),
    /// `ToLink`: what the link made of the datagram.
    Link(Reception),
    /// `Tick`: the device's clock moved.
    Ticked,
    /// `Local`: the object was set.
    Set,
    /// `Local`: the object was not set, for this fault.
    NotSet(SetFault),
    /// `Label`, `Enable`, `Unlock` or `Fail`: the object was changed.
    Changed,
    /// `Label`, `Enable`, `Unlock` or `Fail`: the object was not changed, for this fault.
    NotChanged(FrontFault),
    /// `Take`: the answer to the command, which the link no longer has.
    Answer(Answer),
    /// `Take`: the link has no answer under the handle. Nothing changed.
    NoAnswer,
    /// `Renew`: a new link took the place of the link.
    Renewed,
    /// `Renew`: the first handle is lower than the next one of the link, or the link has no handle left. Nothing
    /// changed.
    NotRenewed,
}
