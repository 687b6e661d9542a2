//! A device that is served at an end until this is closed.
ghost use Rattle.std.specs.Prelude.{◌≤◌, ◌<◌, [], IfOk, IsTrue, unwrap_or};
ghost use Rattle.std.specs.Option.{option_map};
ghost use Rattle.oca_types.specs.Sizes.{sizes_of};
ghost use Rattle.oca_net.specs.Ends.{last_u64};
ghost use Rattle.oca_device.specs.Devices.{Represents};
ghost use Rattle.ocadev_cli.specs.Serving.{ServesFrom};
ghost use Rattle.ocadev_cli.specs.Storing.{store_of};

use super::disk::Disk;
use super::log::Log;
use super::store::{FileStore, Kept};
use oca_device::{Device, NoElectronics, Outbox, Report, serve_keeping, serve_with};
use oca_net::End;
use oca_script::Sink;
use oca_tree::Tree;
use oca_types::{NoMemory, Sizes};
use std::alloc::Global;

/// A device, and memory for its answers to one datagram.
#[derive(Drop)]
pub struct Served {
    pub device: Device,
    pub outbox: Outbox,
}

impl Served {
    /// A device of these objects and sizes before any event. The call takes all the memory that the device will need.
    /// Refusal: `NoMemory`, if memory was refused; the objects are then lost.
    pub fn new(alloc: Global, tree: Tree, sizes: Sizes) -> Result<Served, NoMemory>
        ensures { IfOk result (λ served. Represents (sizes_of sizes) served.device tree []) }
    {
        Ok(Served {
            device: Device::with_sizes(alloc, tree, sizes)?,
            outbox: Outbox::new(alloc)?,
        })
    }
}

/// Serves a device until its end is closed, but for at most `turns` turns if these are given, and returns how often each
/// thing was done. If `kept` is given, the objects are stored in its file.
pub fn serve<E: End, D: Disk + Drop, F: Sink>(
    served: &mut Served,
    end: &mut E,
    kept: Option<Kept<'_, D>>,
    log: &mut Log<'_, F>,
    turns: Option<u64>,
) -> Report
    ensures served { ServesFrom (option_map
        (λ k. record { is_behind = k.waiting.is_behind; store = store_of (D.state k.disk) }) kept.entry) served.old.device
        served.new.device (E.state end.old) (E.state end.new) result }
    ensures turns { result.turns ≤ unwrap_or turns last_u64 }
    ensures closed { result.turns < unwrap_or turns last_u64 → IsTrue (E.state end.new).closed }
{
    let turns = turns.unwrap_or(u64::MAX);
    let Served { device, outbox } = served;
    match kept {
        Some(kept) => {
            let Kept {
                path,
                mut disk,
                mut waiting,
            } = kept;
            let mut store = FileStore::new(path, &mut disk, log);
            let none = &mut NoElectronics;
            serve_keeping(device, end, outbox, &mut waiting, &mut store, none, turns)
        }
        None => serve_with(device, end, outbox, log, turns),
    }
}
