//! A panel for the two-channel amplifier: an example of embedding a controller.
//!
//! `panel [PORT]` opens channel 1 of the amplifier at 127.0.0.1 and that port, sets its gain to -6 dB, and reads it
//! back. `panel PORT objects` lists the objects of any device there.
#![tactic(auto)]

mod objects;
mod words;

use anyhow::Error;
use objects::print_objects;
use oca_model::{MuteState, Value, word_of};
use oca_net::{End, UdpEnd, fill_standard_descriptors};
use oca_panel::{OwnPort, Panel, Trouble};
use oca_types::{Ono, Peer, Span};
use std::net::Net;
use std::rt::Runtime;
use words::asked;

/// The mute and the gain of channel 1, which is in tenths of a decibel.
const CHANNEL: [Ono; 2] = [Ono(4097), Ono(4098)];

/// Does what the words ask for, and prints why where that fails.
fn main(rt: HostRuntime) -> Result<(), Error> {
    let _ = fill_standard_descriptors(&rt);
    if let Err(error) = run(&rt) {
        println!(rt; "{error}")?;
    }
    Ok(())
}

/// Sets a channel of the device at the port that the words name, or lists its objects.
fn run<R: Runtime + Net + AllocGlobal>(rt: &R) -> Result<(), Error> {
    let (port, lists) = asked(rt)?;
    ask_device(rt, Peer::loopback(port), lists)
}

/// Opens a panel for the device, over a socket at the address from which the system reaches it. The first handle is
/// above those of earlier runs, which the device may remember if they had the same port. A command waits for 10.5
/// seconds, longer than a link retransmits it.
fn ask_device<R: Runtime + Net + AllocGlobal>(
    rt: &R,
    device: Peer,
    lists: bool,
) -> Result<(), Error> {
    let end = UdpEnd::bind_towards(rt.alloc(), rt, device, 0)?;
    let first = OwnPort::now(rt).first_handle;
    let mut panel = Panel::open(device, end, first, Span::default(), 10_500);
    if lists {
        print_objects(rt, &mut panel)
    } else {
        set_channel(rt, &mut panel)
    }
}

/// Opens channel 1, sets its gain to -6 dB and reads it back.
fn set_channel<R: Runtime, E: End>(rt: &R, panel: &mut Panel<E>) -> Result<(), Error> {
    let [mute, gain] = CHANNEL;
    let open = panel.set(mute, Value::Mute(MuteState::Unmuted));
    print_status(rt, "open channel 1", open)?;
    let lower = panel.set(gain, Value::Int16(-60));
    print_status(rt, "gain to -6 dB", lower)?;
    match panel.get(gain) {
        Ok(value) => println!(rt; "gain: {} dB/10", word_of(value).as_str())?,
        Err(trouble) => print_status(rt, "gain", Err(trouble))?,
    }
    Ok(())
}

/// Prints the number of the device's status behind what was done.
fn print_status<R: Runtime>(rt: &R, what: &str, done: Result<(), Trouble>) -> Result<(), Error> {
    let status = status(done)?;
    println!(rt; "{what}: status {status}")?;
    Ok(())
}

/// The number of the device's status, or why no answer came.
fn status(done: Result<(), Trouble>) -> Result<u8, Trouble> {
    match done {
        Ok(()) => Ok(0),
        Err(Trouble::Refused(status)) => Ok(status),
        Err(trouble) => Err(trouble),
    }
}
