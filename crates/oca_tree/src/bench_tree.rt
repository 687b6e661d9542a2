//! The bench device: a desk with one object of each form.
ghost use Rattle.std.specs.Prelude.{◌≡◌, ◌≤◌, ◌<◌, ◌^◌, [], ◌∷◌, ◌++◌, take, None, true, OnOk, IfOk, IfErr, IsErrOf};
ghost use Rattle.oca_tree.specs.Bench.{bench_objects, strip, bench_with};
ghost use Rattle.oca_tree.specs.Room.{room_size};
ghost use Rattle.oca_tree.specs.Building.{add_fault, object_of_spec};
ghost use Rattle.oca_tree.specs.declared.builder.AddFault.TheVariants.{NoMemory, Full};

use crate::builder::{AddFault, Kind, Spec, TreeBuilder};
use crate::room::Room;
use crate::tree::Tree;
use oca_model::{MuteState, PolarityState};
use oca_types::Ono;
use std::alloc::Global;

/// What an object is that can be locked.
fn lockable<'a>(role: &'a str, kind: Kind<'a>) -> Spec<'a>
    ensures { result ≡ record { role = role.entry; lockable = true; kind = kind.entry } }
{
    Spec {
        role,
        lockable: true,
        kind,
    }
}

/// Adds an object that nothing refuses.
fn add(builder: &mut TreeBuilder, container: Ono, ono: Ono, spec: &Spec<'_>) -> Result<(), AddFault>
    requires { add_fault builder.old.room builder.old.list container.0 ono.0 spec.now ≡ None }
    ensures ok { OnOk result (builder.new
        ≡ record builder.old { list = builder.old.list ++ object_of_spec container.0 ono.0 spec.now ∷ [] }) }
    ensures err { IfErr result (λ e. e ≡ NoMemory) }
{
    builder.add(container, ono, spec)
}

/// Adds the desk, and in it the mute, the polarity and the switch. Refusal: `NoMemory`, where that was refused.
fn add_states(builder: &mut TreeBuilder) -> Result<(), AddFault>
    requires room { 8 ≤ builder.old.room }
    requires first { builder.old.list ≡ take 1 bench_objects }
    ensures ok { OnOk result (builder.new ≡ record builder.old { list = take 5 bench_objects }) }
    ensures err { IfErr result (λ e. e ≡ NoMemory) }
{
    let desk = Ono(4096);
    let desk_spec = lockable("desk", Kind::Block);
    add(builder, Ono(100), desk, &desk_spec)?;
    let mute_spec = lockable("mute", Kind::Mute(MuteState::Muted));
    add(builder, desk, Ono(4097), &mute_spec)?;
    let polarity_spec = lockable("polarity", Kind::Polarity(PolarityState::NonInverted));
    add(builder, desk, Ono(4098), &polarity_spec)?;
    let input_spec = lockable(
        "input",
        Kind::Switch {
            names: &["Line", "Mic", "Off"],
            position: 0,
        },
    );
    add(builder, desk, Ono(4099), &input_spec)?;
    Ok(())
}

/// Adds the numbers of the desk. Refusal: `NoMemory`, where that was refused.
fn add_numbers(builder: &mut TreeBuilder) -> Result<(), AddFault>
    requires room { 8 ≤ builder.old.room }
    requires first { builder.old.list ≡ take 5 bench_objects }
    ensures ok { OnOk result (builder.new ≡ record builder.old { list = bench_objects }) }
    ensures err { IfErr result (λ e. e ≡ NoMemory) }
{
    let desk = Ono(4096);
    let trim_spec = lockable(
        "trim",
        Kind::Int16 {
            setting: 0,
            least: -600,
            greatest: 600,
        },
    );
    add(builder, desk, Ono(4100), &trim_spec)?;
    let lamp_spec = lockable("lamp", Kind::Boolean(false));
    add(builder, desk, Ono(4101), &lamp_spec)?;
    let dim_spec = Spec {
        role: "dim",
        lockable: false,
        kind: Kind::Uint8 {
            setting: 10,
            least: 0,
            greatest: 100,
        },
    };
    add(builder, desk, Ono(4102), &dim_spec)?;
    Ok(())
}

/// Adds the bench device's own objects behind the root. Refusal: `NoMemory`, where that was refused.
fn add_desk(builder: &mut TreeBuilder) -> Result<(), AddFault>
    requires room { 8 ≤ builder.old.room }
    requires first { builder.old.list ≡ take 1 bench_objects }
    ensures ok { OnOk result (builder.new ≡ record builder.old { list = bench_objects }) }
    ensures err { IfErr result (λ e. e ≡ NoMemory) }
{
    add_states(builder)?;
    add_numbers(builder)
}

/// The bench device's own objects in a builder with this room. Refusal: `NoMemory`, where that was refused.
fn desk(alloc: Global, room: Room) -> Result<TreeBuilder, AddFault>
    requires { 8 ≤ room_size room }
    ensures ok { IfOk result (λ builder. builder ≡ record { room = room_size room; list = bench_objects }) }
    ensures err { IfErr result (λ e. e ≡ NoMemory) }
{
    let mut builder = TreeBuilder::with_room(alloc, room)?;
    add_desk(&mut builder)?;
    Ok(builder)
}

/// Returns a small tree of objects for tests, called the bench device. Under the root is the block 4096, `desk`, with
/// six objects. The mute is 4097 (muted), the polarity 4098 (non-inverted), and the switch 4099 (at Line, with the
/// positions Line, Mic and Off). The Int16 actuator is 4100 (0, from -600 to 600), the Boolean actuator 4101 (off), and
/// the Uint8 actuator 4102 (10, from 0 to 100). All of them except 4102 can be locked. The call takes the memory for
/// 128 objects from `alloc`. The only refusal is `NoMemory`, if the allocator refused memory.
pub fn bench(alloc: Global) -> Result<Tree, AddFault>
    ensures ok { IfOk result (λ tree. tree ≡ bench_objects) }
    ensures err { IfErr result (λ e. e ≡ NoMemory) }
{
    Ok(desk(alloc, Room::default())?.finish())
}

/// Adds the strip of a channel, whose block has this ONo and whose members have the next three.
#[tactic(auto, unfolding(crate::specs::Building::value_of))]
fn add_strip(builder: &mut TreeBuilder, first: u32) -> Result<(), AddFault>
    requires { first < 2 ^ 31 }
    ensures { OnOk result (builder.new ≡ record builder.old { list = builder.old.list ++ strip first }) }
{
    let block = Ono(first);
    let block_spec = lockable("strip", Kind::Block);
    builder.add(Ono(100), block, &block_spec)?;
    let mute_spec = lockable("mute", Kind::Mute(MuteState::Muted));
    builder.add(block, Ono(first + 1), &mute_spec)?;
    let polarity_spec = lockable("polarity", Kind::Polarity(PolarityState::NonInverted));
    builder.add(block, Ono(first + 2), &polarity_spec)?;
    let trim_spec = lockable(
        "trim",
        Kind::Int16 {
            setting: 0,
            least: -600,
            greatest: 600,
        },
    );
    builder.add(block, Ono(first + 3), &trim_spec)?;
    Ok(())
}

/// Returns the tree of [`bench`] with `channels` more blocks under its root, the channel strips. A strip is a block
/// with the role `strip` that contains a mute (muted), a polarity (non-inverted) and an Int16 actuator `trim` (0, from
/// -600 to 600). All four can be locked. Their numbers follow each other from 4103 on. With 0 channels the objects are
/// those of [`bench`]. The call takes memory from `alloc` for exactly these objects. Refusals, the first that applies:
/// `Full` if `channels` is above 1,022, since a tree has at most 4,096 objects; no memory is then taken. `NoMemory` if
/// the allocator refused memory.
pub fn bench_with_channels(alloc: Global, channels: u16) -> Result<Tree, AddFault>
    ensures ok { IfOk result (λ tree. tree ≡ bench_with channels) }
    ensures most { 1022 < channels → IsErrOf result Full }
{
    if channels > 1022 {
        return Err(AddFault::Full);
    }
    let Some(room) = Room::new(8 + 4 * channels) else {
        return Err(AddFault::Full);
    };
    let mut builder = desk(alloc, room)?;
    for channel in 0..channels {
        add_strip(&mut builder, 4103 + 4 * u32::from(channel))?;
    }
    Ok(builder.finish())
}
