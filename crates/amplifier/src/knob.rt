//! The amplifier's own knobs, which lines of text turn.
ghost use Rattle.std.specs.Prelude.{◌≡◌, ◌∷◌, IfOk, List, OnErr};
ghost use Rattle.std.specs.Result.{result_err};
ghost use Rattle.oca_types.specs.Sizes.{DeviceSizes};
ghost use Rattle.oca_tree.specs.Settings.{set_fault};
ghost use Rattle.oca_tree.specs.declared.object.Object.{Object};
ghost use Rattle.oca_device.specs.Devices.{Represents};
ghost use Rattle.oca_device.specs.Events.{Event, Local};
ghost use Rattle.oca_tree.specs.LocalChanges.{ToValue};
ghost use Rattle.amplifier.specs.Channels.{channels_of_objects};
ghost use Rattle.amplifier.specs.Knobs.{mute_at, channel_of, tenths_of, gain_by, knob_by, knob_of};

use super::channels::{Channel, Channels};
use oca_device::{Device, Electronics};
use oca_script::field::{number, split_at_byte};
use oca_tree::{MuteState, SetFault, Value};
use oca_types::Ono;

/// What a line turns: the object, and what it is set to.
#[derive(Clone, Copy)]
pub struct Knob {
    pub ono: Ono,
    pub value: Value,
}

impl Knob {
    /// Reads what a line turns: `mute CHANNEL`, `open CHANNEL` or `gain CHANNEL TENTHS`. The channel is 1 or 2; the
    /// tenths of a decibel have one to four digits, after a `-` if they are negative. `None` for any other line.
    #[tactic(auto, unfolding(crate::specs::Knobs::knob_of))]
    pub fn read(line: &[u8]) -> Option<Knob>
        ensures { result ≡ knob_of line.now }
    {
        let (word, rest) = split_at_byte(line, b' ')?;
        knob_with(word, rest)
    }

    /// Turns the knob: sets its object at the local front panel, and then the electronics (`channels`). Refusals, the
    /// first that applies: `NoObject` if there is no such object, `NoSetting` if it is a block, `OtherKind` if it is of
    /// another class, `OutOfRange` if a gain is outside its limits. A refusal changes nothing.
    pub fn turn(self, device: &mut Device, channels: &mut Channels) -> Result<(), SetFault>
        ensures sets { (w : DeviceSizes) (T : List Object) (E : List Event) → Represents w device.old T E →
            Represents w device.new T (Local self.ono.0 (ToValue self.value) ∷ E) }
        ensures fault { result_err result ≡ set_fault device.old.tree self.ono.0 self.value }
        ensures follows { IfOk result (λ _. channels.new ≡ channels_of_objects device.new.tree) }
        ensures refused { OnErr result (device.new ≡ device.old) }
        ensures kept { OnErr result (channels.new ≡ channels.old) }
    {
        device.set(self.ono, self.value)?;
        channels.follow(device.tree(), &[self.ono]);
        Ok(())
    }
}

/// The knob by a line's first word and the rest.
#[tactic(auto, unfolding(crate::specs::Knobs::knob_by))]
fn knob_with(word: &[u8], rest: &[u8]) -> Option<Knob>
    ensures { result ≡ knob_by word.now rest.now }
{
    if word == b"mute".as_slice() {
        return Some(mute(channel(rest)?, MuteState::Muted));
    }
    if word == b"open".as_slice() {
        return Some(mute(channel(rest)?, MuteState::Unmuted));
    }
    if word == b"gain".as_slice() {
        return gain(rest);
    }
    None
}

/// The knob that sets the mute of a channel.
fn mute(channel: Channel, state: MuteState) -> Knob
    ensures { result ≡ mute_at state channel }
{
    Knob {
        ono: channel.mute(),
        value: Value::Mute(state),
    }
}

/// The knob that sets a gain, by what stands behind the word `gain`.
#[tactic(auto, unfolding(crate::specs::Knobs::gain_by))]
fn gain(text: &[u8]) -> Option<Knob>
    ensures { result ≡ gain_by text.now }
{
    let (digit, number) = split_at_byte(text, b' ')?;
    let channel = channel(digit)?;
    let tenths = tenths(number)?;
    Some(Knob {
        ono: channel.gain(),
        value: Value::Int16(tenths),
    })
}

/// A channel by its digit.
fn channel(text: &[u8]) -> Option<Channel>
    ensures { result ≡ channel_of text.now }
{
    if text == b"1".as_slice() {
        return Some(Channel::One);
    }
    if text == b"2".as_slice() {
        return Some(Channel::Two);
    }
    None
}

/// Tenths of a decibel.
fn tenths(text: &[u8]) -> Option<i16>
    ensures { result ≡ tenths_of text.now }
{
    let (first, digits) = text.split_first()?;
    if *first == b'-' {
        return Some(-(number(digits, 4, 9999)? as i16));
    }
    Some(number(text, 4, 9999)? as i16)
}
