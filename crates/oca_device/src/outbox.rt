//! Where a device puts its answers.
ghost use Rattle.std.specs.Prelude.{◌≡◌, ℕ, ◌≤◌, List, [], length, IfOk, slice_get, ◌==◌};
ghost use Rattle.std.specs.Option.{option_map};
ghost use Rattle.oca_pdu.specs.Limits.{most_answered};
ghost use Rattle.oca_device.specs.Outboxes.{bytes_of_packets};

use crate::bounded::BoundedOutbox;
use oca_types::{NoMemory, Packet};
use std::alloc::Global;
use std::fmt;
use std::marker::Model;

/// The most packets that one datagram is answered with: a command has 17 bytes and a keep-alive PDU 12, so a datagram
/// of 1,472 bytes has at most 122 messages that are answered.
const MOST_PACKETS: usize = 122;

/// The packets that answer a datagram, in order, for the peer that sent it. There is room for 122, the most that one
/// datagram gets, so no answer is left out.
#[derive(Drop)]
pub struct Outbox {
    pub(crate) first: BoundedOutbox,
}

impl Model for Outbox {
    ghost use Rattle.std.specs.Prelude.{◌≡◌, ℕ, List};

    ghost Value = { List (List ℕ) };

    ghost view = { λ a. a.first.packets };

    ghost invariant = { λ a. a.first.room ≡ 122 };
}

impl Outbox {
    ghost use Rattle.oca_device.specs.Outboxes.{bytes_of_packets};

    /// Makes an empty outbox with room for 122 packets of at most 1,472 bytes, the most that answer one datagram. The
    /// call takes from `alloc` all the memory that the outbox will need, some 180 kB. The only refusal is `NoMemory` if
    /// that memory is refused. No memory is then kept.
    pub fn new(alloc: Global) -> Result<Outbox, NoMemory>
        ensures { IfOk result (λ outbox. outbox ≡ []) }
    {
        Ok(Outbox {
            first: BoundedOutbox::with_room(alloc, MOST_PACKETS)?,
        })
    }

    /// The number of packets that answer the last datagram: 0 to 122. 0 in a new outbox, and after
    /// [`clear`](Outbox::clear).
    pub fn len(&self) -> usize
        ensures len { result ≡ length self.now }
        ensures most { result ≤ most_answered }
    {
        self.packets().len()
    }

    /// Whether the outbox has no packet: after a datagram that gets no answer, in a new outbox, and after
    /// [`clear`](Outbox::clear).
    pub fn is_empty(&self) -> bool
        ensures { result ≡ (length self.now == 0) }
    {
        self.packets().is_empty()
    }

    /// The packet with the index `i`, counted from 0 in the order in which the packets are sent. `None` if the outbox
    /// has `i` packets or fewer, as for every `i` above 121. The packet stays in the outbox.
    pub fn get(&self, i: usize) -> Option<&Packet>
        ensures { option_map (λ p. p.now.items) result ≡ slice_get self.now i }
    {
        self.first.get(i)
    }

    /// Removes all packets, and keeps the memory. Nothing is sent.
    pub fn clear(&mut self)
        ensures { self.new ≡ [] }
    {
        self.first.clear();
    }

    /// The packets that answer the last datagram, in the order in which they are sent: 0 to 122. Empty in a new outbox,
    /// and after [`clear`](Outbox::clear). The packets stay in the outbox.
    pub fn packets(&self) -> &[Packet]
        ensures packets { bytes_of_packets result.now ≡ self.now }
        ensures most { length result.now ≤ most_answered }
    {
        self.first.packets()
    }
}

impl fmt::Debug for Outbox {
    /// The number of packets.
    fn fmt<W: fmt::Write>(&self, f: &mut fmt::Formatter<W>) -> fmt::Result {
        f.debug_struct("Outbox")
            .field("packets", &self.len())
            .finish()
    }
}
