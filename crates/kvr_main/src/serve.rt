//! `kvr serve`: clients over TCP, one after the other.

use crate::status::{NO_CLIENTS, NO_MEMORY, OFF, UNREAD, tell_early_end, tell_end};
use conf_file::{Conf, ConfFault, read_conf};
use kv_base::PathText;
use kv_real::{FileIn, RealFiles, SystemClock};
use kv_server::top_serve;
use kv_tcp::TcpDoor;
use std::sync::Wait;

/// The status where the configuration is not read.
fn status_without_conf(fault: &ConfFault) -> u8 {
    match fault {
        ConfFault::ReadFault => UNREAD,
        ConfFault::Conf(_) => OFF,
        ConfFault::NoMem => NO_MEMORY,
    }
}

/// Says that the server listens, on standard output.
fn tell_listening(rt: &HostRuntime, door: &TcpDoor<HostRuntime>) {
    if door.address().is_some() {
        let _ = println!(rt; "ready");
    }
}

/// Says why no client can be accepted, in a line on standard error that names the address.
fn tell_no_clients(rt: &HostRuntime, door: &TcpDoor<HostRuntime>, address: &str) {
    let _ = if door.address().is_some() {
        eprintln!(rt; "kvr: the address {address}: clients can't be accepted")
    } else {
        eprintln!(rt; "kvr: the address {address}: it can't be listened on")
    };
}

/// Serves the store in this folder at this address, until accepting fails, and says what ended it. Answers the status.
fn serve_at<W: Wait>(
    rt: HostRuntime,
    waits: &W,
    words: &[String],
    folder: PathText,
    conf: &Conf,
) -> u8 {
    let mut door = TcpDoor::bind(&rt, conf.listen.text());
    tell_listening(&rt, &door);
    let mut files = RealFiles::new(rt.alloc(), rt, folder);
    let mut clock = SystemClock::new(rt);
    let status = top_serve(waits, rt.alloc(), words, &mut door, &mut files, &mut clock);
    match status {
        NO_CLIENTS => tell_no_clients(&rt, &door, conf.listen.text()),
        _ => tell_end(&rt, status, conf.dir.text()),
    }
    status
}

/// Serves by this configuration. Answers the status.
fn serve_by<W: Wait>(rt: HostRuntime, waits: &W, words: &[String], conf: &Conf) -> u8 {
    match PathText::new(rt.alloc(), conf.dir.text()) {
        Ok(folder) => serve_at(rt, waits, words, folder, conf),
        Err(_) => {
            tell_early_end(&rt, NO_MEMORY);
            NO_MEMORY
        }
    }
}

/// The configuration in this file.
fn conf_in(rt: HostRuntime, path: &str) -> Result<Conf, ConfFault> {
    let path = PathText::new(rt.alloc(), path)?;
    read_conf(rt.alloc(), &mut FileIn::new(&rt, path))
}

/// Reads the configuration, listens on its address, and serves until accepting fails. Answers the status.
pub(crate) fn serve<W: Wait>(rt: HostRuntime, waits: &W, words: &[String], path: &PathText) -> u8 {
    match conf_in(rt, path.text()) {
        Ok(conf) => serve_by(rt, waits, words, &conf),
        Err(fault) => {
            let file = path.text();
            let _ = eprintln!(&rt; "kvr: the configuration {file}: {fault}");
            status_without_conf(&fault)
        }
    }
}
