//! What a device did with a command.
ghost use Rattle.std.specs.Prelude.{◌≡◌, ◌<◌, ◌≤◌, [], ◌∷◌, ◌++◌, length};
ghost use Rattle.oca_pdu.specs.Limits.{most_commands};

use oca_types::{MethodId, Ono, Status};
use std::marker::Model;

/// What a device did with one command of a datagram.
#[derive(Clone, Copy, Debug, PartialEq, Eq)]
pub struct Effect {
    /// The object number that the command names. An object with this number may not exist.
    pub target: Ono,
    /// The method that the command calls.
    pub method: MethodId,
    /// Whether the command asks for a response.
    pub respond: bool,
    /// What the device did.
    pub outcome: CommandOutcome,
}

/// What a device did with a command.
#[derive(Clone, Copy, Debug, PartialEq, Eq)]
pub enum CommandOutcome {
    /// The device executed the command, with this status. A status other than OK is a refusal. If the device has no
    /// room for the reply ([`DeviceOf`](crate::DeviceOf)), the peer is told BufferOverflow in place of OK.
    Executed(Status),
    /// The command is a duplicate: the device executed it before, and retains the reply. It did not execute the command
    /// again.
    Duplicate,
    /// The command asks something else under the handle of a retained command. The device ignored it.
    Reused,
    /// The command is too old. The device ignored it.
    Old,
}

/// The most commands of one datagram: a command has 17 bytes, so a datagram of 1,472 bytes has at most 86.
pub(crate) const MOST_COMMANDS: usize = 86;

/// A place for an effect that is not used yet.
const UNUSED: Effect = Effect {
    target: Ono(0),
    method: MethodId { level: 0, index: 0 },
    respond: false,
    outcome: CommandOutcome::Old,
};

/// The effects of the commands of a datagram, in order. Unlike an `ArrayVec` they are removed without a write to their
/// places, which would cost some instructions for each command.
#[derive(Drop)]
pub(crate) struct Effects {
    count: usize,
    places: [Effect; MOST_COMMANDS],
}

impl Model for Effects {
    ghost use Rattle.std.specs.Prelude.{◌≡◌, ◌≤◌, List, length, take};
    ghost use Rattle.oca_device.specs.declared.effect.Effect.{Effect};
    ghost use Rattle.oca_pdu.specs.Limits.{most_commands};

    ghost Value = { List Effect };

    ghost view = { λ e. take e.count e.places };

    ghost invariant = { λ e. (e.count ≤ most_commands) × (length e.places ≡ most_commands) };
}

impl Effects {
    /// No effects.
    pub(crate) fn new() -> Effects
        ensures { result ≡ [] }
    {
        Effects {
            count: 0,
            places: [UNUSED; MOST_COMMANDS],
        }
    }

    /// Removes all effects.
    #[inline(always)]
    pub(crate) fn clear(&mut self)
        ensures { self.new ≡ [] }
    {
        self.count = 0;
    }

    /// Adds an effect.
    #[inline(always)]
    pub(crate) fn push(&mut self, effect: Effect)
        requires { length self.old < most_commands }
        ensures { self.new ≡ self.old ++ effect ∷ [] }
    {
        let at = self.count;
        self.places[at] = effect;
        self.count = at + 1;
    }

    /// The effects, in order.
    pub(crate) fn as_slice(&self) -> &[Effect]
        ensures now { result.now ≡ self.now }
        ensures most { length result.now ≤ most_commands }
    {
        &self.places[..self.count]
    }
}
