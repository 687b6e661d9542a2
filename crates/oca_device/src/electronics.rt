//! What the electronics of a device are handed.
ghost use Rattle.std.specs.Prelude.{◌≡◌};
ghost use Rattle.oca_device.specs.Following.{ElectronicsState, Follows};
ghost use Rattle.oca_device.specs.Written.{numbers_of};

use crate::device::Device;
use crate::outbox::Outbox;
use crate::report::Report;
use oca_net::Heard;
use oca_tree::Tree;
use oca_types::Ono;

/// The electronics of a device, which do what its objects say: a program implements this trait for its hardware.
/// [`follow`](Electronics::follow) gets the objects after each datagram.
///
/// Electronics that *record* have a state that only contracts see: it lists what they were given (`followed`). Of other
/// electronics the contracts say nothing.
pub trait Electronics {
    /// What the electronics say of themselves.
    ghost state: { Self → ElectronicsState };

    /// Is called after each datagram was served, so that the electronics do what the objects say. `tree` has the
    /// objects as the datagram left them. `written` are the numbers of the objects that it wrote to, in order, each as
    /// often as it was written ([`Device::written`](crate::Device::written)): 0 to 86 numbers. A program that takes
    /// long here delays the next receive.
    fn follow(&mut self, tree: &Tree, written: &[Ono])
        ensures { Follows tree.now (numbers_of written.now) (state self.old) (state self.new) };

    /// Is called at the end of each turn of [`serve_with`](crate::serve_with), so that the program can write a log. It
    /// does nothing if the electronics do not define it. [`serve_keeping`](crate::serve_keeping) tells its store
    /// instead ([`Store::tell`](crate::Store::tell)).
    ///
    /// `_heard` is what was received, `_bytes` and `_answers` are the datagram and its answers, `_turn` is what the
    /// turn did, and `_device` is the device after it.
    fn tell(
        &mut self,
        _heard: Heard,
        _bytes: &[u8],
        _answers: &Outbox,
        _turn: &Report,
        _device: &Device,
    )
        ensures { state self.new ≡ state self.old }
    {}
}

/// Electronics that do nothing, for a device without hardware.
#[derive(Clone, Copy, Debug, PartialEq, Eq)]
pub struct NoElectronics;

impl Electronics for NoElectronics {
    ghost use Rattle.std.specs.Prelude.{[], false};

    ghost state = { λ _. record { tells = false; followed = [] } };

    /// Does nothing.
    fn follow(&mut self, _tree: &Tree, _written: &[Ono]) {}
}
