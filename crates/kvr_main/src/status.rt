//! What the program's statuses say.

/// The status of words that name no program.
pub(crate) const USAGE: u8 = 1;

/// The status where a call to the files of the store failed.
const NO_FILES: u8 = 2;

/// The status where the log of the store is damaged.
const DAMAGED: u8 = 3;

/// The status where there is no memory for the words, the configuration or the store.
pub(crate) const NO_MEMORY: u8 = 4;

/// The status where the configuration can't be read.
pub(crate) const UNREAD: u8 = 5;

/// The status where clients can't be accepted.
pub(crate) const NO_CLIENTS: u8 = 9;

/// The status where the configuration is off its grammar.
pub(crate) const OFF: u8 = 11;

/// What ended `top_script` or `top_serve` with this status; nothing of 0.
fn reason_of(status: u8) -> Option<&'static str> {
    match status {
        0 => None,
        USAGE => Some("usage: kvr script --dir D, or kvr serve --conf FILE"),
        NO_FILES => Some("a call to the files of the store failed; the folder has to be there"),
        DAMAGED => Some("the log of the store is damaged"),
        NO_MEMORY => Some("there is no memory"),
        5 => Some("standard input can't be read"),
        6 => Some("standard output can't be written"),
        7 => Some("the input is off the protocol, or ends inside a request"),
        8 => Some("2^40 bytes were read"),
        _ => Some("clients can't be accepted"),
    }
}

/// Says what ended a run over the store in this folder, in a line on standard error; nothing of status 0. Where it lies in
/// the files of the store, the line names the folder.
pub(crate) fn tell_end(rt: &HostRuntime, status: u8, folder: &str) {
    if let Some(reason) = reason_of(status) {
        let _ = match status {
            NO_FILES | DAMAGED => eprintln!(rt; "kvr: the folder {folder}: {reason}"),
            _ => eprintln!(rt; "kvr: {reason}"),
        };
    }
}

/// Says what ended the program with this status before its words named a folder.
pub(crate) fn tell_early_end(rt: &HostRuntime, status: u8) {
    tell_end(rt, status, ".");
}
