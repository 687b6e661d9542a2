//! What the amplifier's electronics do, and the objects by which a controller sets it.
ghost use Rattle.std.specs.Prelude.{◌≡◌};
ghost use Rattle.amplifier.specs.Channels.{block_of, mute_ono, gain_ono, is_muted, tenths_set, levels_in};
ghost use Rattle.amplifier.specs.Channels.{channels_of_objects};

use oca_device::Electronics;
use oca_tree::{AddFault, Kind, MuteState, Setting, Spec, Tree, TreeBuilder};
use oca_types::Ono;
use std::alloc::Global;

/// The root block.
const ROOT: Ono = Ono(100);

/// One of the two channels.
#[derive(Clone, Copy)]
pub enum Channel {
    One,
    Two,
}

impl Channel {
    /// The block of its objects.
    fn block(self) -> Ono
        ensures { result.0 ≡ block_of self }
    {
        match self {
            Channel::One => Ono(4096),
            Channel::Two => Ono(5096),
        }
    }

    /// The ONo of the channel's mute: 4097 or 5097.
    pub fn mute(self) -> Ono
        ensures { result.0 ≡ mute_ono self }
    {
        Ono(self.block().0 + 1)
    }

    /// The ONo of the channel's gain, an Int16 in tenths of a decibel: 4098 or 5098.
    pub fn gain(self) -> Ono
        ensures { result.0 ≡ gain_ono self }
    {
        Ono(self.block().0 + 2)
    }
}

/// How a channel is set. The gain is in tenths of a decibel.
#[derive(Clone, Copy, PartialEq, Eq)]
pub struct Levels {
    pub muted: bool,
    pub gain: i128,
}

/// Both channels, as the objects say.
#[derive(Clone, Copy, PartialEq, Eq)]
pub struct Channels {
    pub one: Levels,
    pub two: Levels,
}

/// The objects: a block for each channel (4096 and 5096) with a mute, muted at first, and a gain of -80 to 10 dB in
/// tenths, 0 at first. All can be locked. Refusal: `NoMemory`, if memory was refused.
pub fn build(alloc: Global) -> Result<Tree, AddFault> {
    let mut builder = TreeBuilder::new(alloc)?;
    add_channel(&mut builder, Channel::One, "channel 1")?;
    add_channel(&mut builder, Channel::Two, "channel 2")?;
    Ok(builder.finish())
}

/// Adds a channel: its block with this role, a mute, and a gain from -80 to 10 dB. Refusals: those of `add`, and what
/// was added before stays.
fn add_channel(builder: &mut TreeBuilder, channel: Channel, role: &str) -> Result<(), AddFault> {
    let block = Spec {
        role,
        lockable: true,
        kind: Kind::Block,
    };
    let mute = Spec {
        role: "mute",
        lockable: true,
        kind: Kind::Mute(MuteState::Muted),
    };
    let gain = Spec {
        role: "gain",
        lockable: true,
        kind: Kind::Int16 {
            setting: 0,
            least: -800,
            greatest: 100,
        },
    };
    builder.add(ROOT, channel.block(), &block)?;
    builder.add(channel.block(), channel.mute(), &mute)?;
    builder.add(channel.block(), channel.gain(), &gain)
}

impl Channels {
    /// Both channels, as the objects say: whether each is muted, and its gain in tenths of a decibel. A channel without
    /// a mute counts as muted, and one without a gain as set to 0.
    pub fn new(tree: &Tree) -> Channels
        ensures { result ≡ channels_of_objects tree.now }
    {
        Channels {
            one: levels_of(tree, Channel::One),
            two: levels_of(tree, Channel::Two),
        }
    }
}

impl Electronics for Channels {
    ghost use Rattle.std.specs.Prelude.{[], false};

    ghost state = { λ _. record { tells = false; followed = [] } };

    /// Brings both channels to what the objects say.
    fn follow(&mut self, tree: &Tree, _written: &[Ono])
        ensures { self.new ≡ channels_of_objects tree.now }
    {
        *self = Channels::new(tree);
    }
}

/// What the objects say of a channel.
fn levels_of(tree: &Tree, channel: Channel) -> Levels
    ensures { result ≡ levels_in tree.now channel }
{
    Levels {
        muted: is_muted(tree.setting_of(channel.mute())),
        gain: tenths(tree.setting_of(channel.gain())),
    }
}

/// Whether a channel with this mute is muted: unless it says Unmuted.
fn is_muted(mute: Option<Setting>) -> bool
    ensures { result ≡ is_muted mute }
{
    match mute {
        Some(Setting::State(state)) => state != MuteState::Unmuted as u8,
        _ => true,
    }
}

/// How a gain is set, in tenths of a decibel: at 0 where there is none.
fn tenths(gain: Option<Setting>) -> i128
    ensures { result ≡ tenths_set gain }
{
    match gain {
        Some(Setting::Number { setting, .. }) => setting,
        _ => 0,
    }
}
