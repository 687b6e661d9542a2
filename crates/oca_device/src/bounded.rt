//! An outbox with room for so many packets as its maker chose.
ghost use Rattle.std.specs.Prelude.{◌≡◌, ◌+◌, ◌<◌, ◌≤◌, [], length, take, IfOk, slice_get};
ghost use Rattle.std.specs.Prelude.{◌==◌, vec_capacity, false, true};
ghost use Rattle.std.specs.Option.{option_map};
ghost use Rattle.oca_types.specs.Replies.{reply_in};
ghost use Rattle.oca_types.specs.Sizes.{most_parameter_bytes};
ghost use Rattle.oca_pdu.specs.Messages.{KeepAlive, Pdu};
ghost use Rattle.oca_pdu.specs.Encoding.{pdu_encoding};
ghost use Rattle.oca_device.specs.Groups.{pdu_of};
ghost use Rattle.oca_device.specs.Answers.{response};
ghost use Rattle.oca_device.specs.Outboxes.{bytes_of_packets, first_packets};
ghost use Rattle.oca_device.specs.PrivateServing.{AreGrouped, AreEncodings, IsGrouped, Joins, JoinsLast};

use oca_pdu::{Form, extend_response_of, holds_responses, replace_response_of, write_keepalive};
use oca_types::{Handle, NoMemory, Packet, ReplyParts};
use std::alloc::Global;
use std::fmt;
use std::marker::Model;

/// The first packets that answer a datagram, in order, for the peer that sent it: at most as many as
/// [`with_room`](BoundedOutbox::with_room) was given. Packets above that number are left out. For the peer they are as
/// if the network had lost them.
#[derive(Drop)]
pub struct BoundedOutbox {
    count: usize,
    room: usize,
    is_cut: bool,
    places: Vec<Packet>,
}

impl Model for BoundedOutbox {
    ghost use Rattle.std.specs.Prelude.{◌≤◌, length, take, vec_capacity};
    ghost use Rattle.oca_device.specs.Outboxes.{bytes_of_packets, KeptPackets};

    ghost Value = { KeptPackets };

    ghost view = { λ a. record {
      packets = bytes_of_packets (take a.count a.places.items);
      room = a.room;
      is_cut = a.is_cut;
    } };

    ghost invariant = { λ a.
        (a.count ≤ length a.places.items) × (length a.places.items ≤ a.room) × (a.room ≤ vec_capacity a.places) };
}

impl BoundedOutbox {
    ghost use Rattle.oca_device.specs.Outboxes.{bytes_of_packets, first_packets};

    /// Makes an empty outbox with room for `room` packets, of at most 1,472 bytes each. With a room of 0 every answer
    /// is left out. No datagram has more than 122 packets of answers. The call takes from `alloc` all the memory that
    /// the outbox will need, some 1,480 bytes a packet. The only refusal is `NoMemory` if that memory is refused. No
    /// memory is then kept.
    pub fn with_room(alloc: Global, room: usize) -> Result<BoundedOutbox, NoMemory>
        ensures { IfOk result (λ outbox. outbox ≡ first_packets room []) }
    {
        match Vec::with_capacity(alloc, room) {
            Ok(places) => Ok(BoundedOutbox {
                count: 0,
                room,
                is_cut: false,
                places,
            }),
            Err(_) => Err(NoMemory),
        }
    }

    /// The number of packets for which the outbox has room: what [`with_room`](BoundedOutbox::with_room) was given. It
    /// never changes.
    pub fn room(&self) -> usize
        ensures { result ≡ self.now.room }
    {
        self.room
    }

    /// Whether answers to the last datagram were left out because the outbox had no room for them. `false` in a new
    /// outbox, and after [`clear`](BoundedOutbox::clear).
    pub fn is_cut(&self) -> bool
        ensures { result ≡ self.now.is_cut }
    {
        self.is_cut
    }

    /// Removes all packets, and keeps the room and the memory. [`is_cut`](BoundedOutbox::is_cut) is then `false`.
    /// Nothing is sent.
    pub fn clear(&mut self)
        ensures { self.new ≡ first_packets self.old.room [] }
    {
        self.count = 0;
        self.is_cut = false;
    }

    /// The packets that answer the last datagram, in the order in which they are sent: 0 to the room of the outbox.
    /// Empty in a new outbox, and after [`clear`](BoundedOutbox::clear). The packets stay in the outbox.
    pub fn packets(&self) -> &[Packet]
        ensures packets { bytes_of_packets result.now ≡ self.now.packets }
        ensures most { length result.now ≤ self.now.room }
    {
        &self.places[..self.count]
    }

    /// The packet with the index `i`, counted from 0 in the order in which the packets are sent. `None` if the outbox
    /// has `i` packets or fewer. The packet stays in the outbox.
    pub fn get(&self, i: usize) -> Option<&Packet>
        ensures { option_map (λ p. p.now.items) result ≡ slice_get self.now.packets i }
    {
        self.packets().get(i)
    }

    /// Adds a response: to the last packet where that holds responses and has room for it, and else in a packet of its
    /// own. Where there is no room for that, or a packet was left out already, it is left out.
    #[inline(always)]
    pub(crate) fn respond(&mut self, handle: Handle, reply: ReplyParts<'_>)
        requires short { length reply.params.now ≤ most_parameter_bytes }
        requires groups { AreGrouped self.old }
        ensures { IsGrouped (response handle.0 (reply_in reply.entry)) self.old self.new }
    {
        if self.is_cut {
            return;
        }
        if join_last(&mut self.places, self.count, handle, reply) {
            return;
        }
        if self.count == self.room {
            self.is_cut = true;
            return;
        }
        make_place(&mut self.places, self.count, self.room);
        replace_response_of(&mut self.places[self.count], handle, reply);
        self.count += 1;
    }

    /// Adds the packet of a keep-alive, where there is room for it.
    pub(crate) fn return_keepalive(&mut self, form: Form)
        requires groups { AreGrouped self.old }
        ensures { IsGrouped (KeepAlive form) self.old self.new }
    {
        if self.is_cut || self.count == self.room {
            self.is_cut = true;
            return;
        }
        make_place(&mut self.places, self.count, self.room);
        put_keepalive(&mut self.places[self.count], form);
        self.count += 1;
    }
}

impl fmt::Debug for BoundedOutbox {
    /// The number of packets, and for how many there is room.
    fn fmt<W: fmt::Write>(&self, f: &mut fmt::Formatter<W>) -> fmt::Result {
        f.debug_struct("BoundedOutbox")
            .field("packets", &self.count)
            .field("room", &self.room)
            .finish()
    }
}

/// Adds a response to the last of the first `count` packets where that holds responses and has room for it, and returns
/// whether it did.
#[inline(always)]
fn join_last(places: &mut Vec<Packet>, count: usize, handle: Handle, reply: ReplyParts<'_>) -> bool
    requires short { length reply.params.now ≤ most_parameter_bytes }
    requires within { count ≤ length places.old.items }
    requires groups { AreEncodings (bytes_of_packets (take count places.old.items)) }
    ensures joins { JoinsLast result (response handle.0 (reply_in reply.entry)) (bytes_of_packets
        (take count places.old.items))
        (bytes_of_packets (take count places.new.items)) }
    ensures length { length places.new.items ≡ length places.old.items }
    ensures room { vec_capacity places.new ≡ vec_capacity places.old }
{
    if count == 0 {
        return false;
    }
    join(&mut places[count - 1], handle, reply)
}

/// Adds a response to the PDU of a packet where that is of responses and has room for it, and returns whether it did.
#[inline(always)]
fn join(packet: &mut Packet, handle: Handle, reply: ReplyParts<'_>) -> bool
    requires short { length reply.params.now ≤ most_parameter_bytes }
    requires holds { (p : Pdu) × (packet.old.items ≡ pdu_encoding p) }
    ensures { (p : Pdu) → packet.old.items ≡ pdu_encoding p →
        Joins result p (response handle.0 (reply_in reply.entry)) packet.old.items packet.new.items }
{
    holds_responses(packet) && extend_response_of(packet, handle, reply).is_ok()
}

/// Makes a place for one more packet after these, where none is left from earlier datagrams. It lies in memory that was
/// taken at first.
fn make_place(places: &mut Vec<Packet>, count: usize, room: usize)
    requires within { count ≤ length places.old.items }
    requires few { count < room }
    requires most { length places.old.items ≤ room }
    requires room { room ≤ vec_capacity places.old }
    ensures there { count < length places.new.items }
    ensures most { length places.new.items ≤ room }
    ensures room { room ≤ vec_capacity places.new }
    ensures same { take count places.new.items ≡ take count places.old.items }
{
    if count == places.len() {
        places.push_reserved(Packet::new());
    }
}

/// Writes a keep-alive in the place of what the packet held.
fn put_keepalive(packet: &mut Packet, form: Form)
    ensures { packet.new.items ≡ pdu_encoding (pdu_of (KeepAlive form)) }
{
    packet.clear();
    match write_keepalive(packet, form) {
        Ok(()) => {}
        Err(_) => unreachable!(),
    }
}
