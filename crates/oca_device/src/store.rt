//! Where the objects of a device are kept.
ghost use Rattle.std.specs.Prelude.{◌≡◌};
ghost use Rattle.oca_device.specs.Keeping.{StoreState, Stores};

use crate::device::Device;
use crate::outbox::Outbox;
use crate::report::Report;
use oca_net::Heard;
use oca_tree::Tree;

/// Where the objects of a device are kept over a stop of the program: a program implements this trait for its memory.
/// [`store`](Store::store) stores the objects and returns whether that succeeded.
///
/// A store that *records* has a state that only contracts see: it lists what the store was given, and whether the store
/// said that it has that (`storings`). Of other stores the contracts say nothing.
pub trait Store {
    /// What the store says of itself.
    ghost state: { Self → StoreState };

    /// Stores the objects. Return `true` if they will be there after any stop, even after a power cut. Return `false`
    /// if that failed: a later start then finds what was stored before, or these objects. `tree` has all objects of the
    /// device as they are now.
    fn store(&mut self, tree: &Tree) -> bool
        ensures { Stores result tree.now (state self.old) (state self.new) };

    /// Is called for each turn as soon as its datagram is served, so that the store can write a log. It does nothing if
    /// the store does not define it.
    ///
    /// `_heard` is what was received, `_bytes` and `_answers` are the datagram and its answers, `_turn` is what the
    /// turn did, and `_device` is the device after it. A send that fails later is in no turn's report.
    fn tell(
        &mut self,
        _heard: Heard,
        _bytes: &[u8],
        _answers: &Outbox,
        _turn: &Report,
        _device: &Device,
    )
        ensures { state self.new ≡ state self.old }
    {}
}
