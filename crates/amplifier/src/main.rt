//! A two-channel amplifier as an OCA device at a UDP socket: an example of embedding.
//!
//! `amplifier [PORT TURNS]` binds 127.0.0.1, says where on standard error, and serves so many turns; a line is printed
//! whenever a controller or a knob changed a channel. Lines of standard input turn knobs: `mute 1`, `open 2`, `gain 2
//! -60` in tenths of a decibel. One is turned before each turn, where its whole line is there: input is never awaited.
#![tactic(auto)]

mod channels;
mod knob;
mod lines;

use channels::{Channels, Levels, build};
use knob::Knob;
use lines::Lines;
use oca_device::{Device, Outbox, serve_with};
use oca_net::{End, UdpEnd, fill_standard_descriptors};
use oca_types::{LOOPBACK, Window};
use std::env;
use std::io::Read;
use std::net::Net;
use std::os::fd::AsRawFd;
use std::process::ExitCode;
use std::rt::Runtime;

/// Serves the channels at the port and for the turns that the words say, and ends with 1 where that fails.
fn main(rt: HostRuntime) -> ExitCode {
    let _ = fill_standard_descriptors(&rt);
    let (port, turns) = words(&rt);
    match serve(&rt, port, turns, &mut Lines::new(rt.stdin())) {
        Ok(()) => ExitCode::SUCCESS,
        Err(text) => {
            let _ = eprintln!(rt; "{text}");
            ExitCode::FAILURE
        }
    }
}

/// The port and the number of turns that the command line names: a port of the system's choice and 2 without words.
fn words<R: Runtime + AllocGlobal>(rt: &R) -> (u16, u32) {
    let Ok(args) = env::args(rt) else {
        return (0, 2);
    };
    match args.collect::<Vec<String>>(rt.alloc()) {
        Ok(words) => port_and_turns(words.as_slice()),
        Err(_) => (0, 2),
    }
}

/// The port and the number of turns behind the program's name.
fn port_and_turns(words: &[String]) -> (u16, u32) {
    match words {
        [_, port, turns] => (
            port.parse::<u16>().unwrap_or(0),
            turns.parse::<u32>().unwrap_or(2),
        ),
        _ => (0, 2),
    }
}

/// Makes the device and serves it.
fn serve<R: Runtime + AllocGlobal + Net, I: Read + AsRawFd + Drop>(
    rt: &R,
    port: u16,
    turns: u32,
    lines: &mut Lines<I>,
) -> Result<(), &'static str> {
    let tree = build(rt.alloc()).map_err(|_| "no memory")?;
    let mut device = Device::new(rt.alloc(), tree, Window::default()).map_err(|_| "no memory")?;
    serve_at(rt, port, turns, lines, &mut device)
}

/// Serves the device at the port.
fn serve_at<R: Runtime + AllocGlobal + Net, I: Read + AsRawFd + Drop>(
    rt: &R,
    port: u16,
    turns: u32,
    lines: &mut Lines<I>,
    device: &mut Device,
) -> Result<(), &'static str> {
    let mut outbox = Outbox::new(rt.alloc()).map_err(|_| "no memory")?;
    let mut end = UdpEnd::bind(rt.alloc(), rt, LOOPBACK, port).map_err(|_| "socket failed")?;
    let _ = eprintln!(rt; "listening 127.0.0.1:{}", end.local().port);
    take_turns(rt, turns, lines, device, &mut end, &mut outbox)
}

/// Serves the device for so many turns. Before each a knob is turned, where a line says one.
fn take_turns<R: Runtime, E: End, I: Read + AsRawFd + Drop>(
    rt: &R,
    turns: u32,
    lines: &mut Lines<I>,
    device: &mut Device,
    end: &mut E,
    outbox: &mut Outbox,
) -> Result<(), &'static str> {
    let mut channels = Channels::new(device.tree());
    for _turn in 0..turns {
        turn_next(rt, lines, device, &mut channels)?;
        let before = channels;
        let _ = serve_with(device, end, outbox, &mut channels, 1);
        show_changed(rt, before, channels)?;
    }
    Ok(())
}

/// Turns the knob of the next line, where one is there, and prints what that changes.
fn turn_next<R: Runtime, I: Read + AsRawFd + Drop>(
    rt: &R,
    lines: &mut Lines<I>,
    device: &mut Device,
    channels: &mut Channels,
) -> Result<(), &'static str> {
    let before = *channels;
    if let Some(line) = lines.next()? {
        turn(rt, line.as_slice(), device, channels);
    }
    show_changed(rt, before, *channels)
}

/// Turns the knob that a line says. A line that turns none and a value out of range are noted on standard error.
fn turn<R: Runtime>(rt: &R, line: &[u8], device: &mut Device, channels: &mut Channels) {
    match Knob::read(line) {
        Some(knob) => {
            if let Err(fault) = knob.turn(device, channels) {
                let _ = eprintln!(rt; "note: {fault}");
            }
        }
        None => {
            let _ = eprintln!(rt; "note: a line turns no knob");
        }
    }
}

/// Prints the mutes and the gains, in tenths of a decibel, where they are not as before.
fn show_changed<R: Runtime>(
    rt: &R,
    before: Channels,
    channels: Channels,
) -> Result<(), &'static str> {
    if channels == before {
        return Ok(());
    }
    let (one, two) = (channels.one, channels.two);
    match println!(rt;
        "1: {} {} dB/10, 2: {} {} dB/10",
        word(one),
        one.gain,
        word(two),
        two.gain
    ) {
        Ok(()) => Ok(()),
        Err(_) => Err("write failed"),
    }
}

/// The word for how a channel is muted.
fn word(levels: Levels) -> &'static str {
    if levels.muted { "muted" } else { "open" }
}
