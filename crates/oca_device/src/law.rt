//! The laws of a device, over whole histories. Nothing here runs: each contract is its law.
ghost use Rattle.oca_device.specs.Groups.{AnswersHaveOneGrouping};
ghost use Rattle.oca_device.specs.LawByEvents.{EveryDeviceStandsByEvents, SomethingHappened, OneThingHappened};

use oca_pdu::{law_one_list_of_messages, law_reading};

/// Law: the events that a device was given determine its objects and sessions, and what the device answers. The
/// function does nothing at run time. The words:
/// - The *events* are the datagrams, the clock readings and the changes at the local front panel. The contracts of the
///   calls of [`Device`](crate::Device) say that each device is in the state that its events determine. So the law
///   holds for every run of a device.
/// - A *peer* is an address and a port. A *session* is what the device stores about one peer.
/// - The *reply window* of a session *retains* the peer's last accepted commands with their replies, as many as its
///   size says.
/// - A *duplicate* asks the same as a retained command under the same handle. A command is *accepted* if the device
///   executes it.
/// - The *heartbeat* of a peer is the interval at which the peer said that it sends (AES70-3).
///
/// The conclusions:
/// - A well-formed datagram is *admitted* if its peer was last heard at most 120,000 ms ago, or if there is room for
///   another session. The device serves the messages of admitted datagrams only.
/// - The objects are those after executing each accepted command once, in order of arrival, with the local front
///   panel's changes between them.
/// - The locks of each peer that is silent for more than three heartbeats are released.
/// - A duplicate is answered with the reply of the execution of the retained command.
/// - A command that is older than the retained ones changes nothing and is not answered. The same holds for a command
///   that asks something else under the handle of a retained one.
pub fn law_by_events()
    ensures law { EveryDeviceStandsByEvents }
    ensures happened { SomethingHappened }
    ensures once { OneThingHappened }
{
    law_reading();
    law_one_list_of_messages();
}

/// Law: the answers to a datagram are grouped into PDUs of OCP.1 (AES70-3) in exactly one way, which is the profile's
/// (`Groups` of the crate's specs). An *answer* is a response or a keep-alive. A *group* is what one PDU contains. The
/// function does nothing at run time. The way is this:
/// - All groups together, in order, are the answers in order.
/// - Each group is one keep-alive, or responses in a PDU of at most 1,472 bytes.
/// - Of two neighbouring groups of responses, the first has no room for the first response of the second.
pub fn law_of_groups()
    ensures { AnswersHaveOneGrouping }
{}
