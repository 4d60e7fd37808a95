//! What the keys of a table hold.

ghost use Rattle.std.specs.Path.{rfind_below};
ghost use Rattle.std.specs.Prelude.{◌≡◌, ◌<◌, ◌==◌, ◌&&◌, not, length, Ok, Err, IfSome, MatchResult, option_map, codes};
ghost use Rattle.toml.specs.Data.{get_member};
ghost use Rattle.toml.specs.View.{view, table_view};
ghost use Rattle.kv_base.specs.Unsigned.{read_u64 as read_u64_in};
ghost use Rattle.conf_file.specs.Configuration.{colon, conf_in, dir_in, is_address as is_address_text, is_conf_key as is_key_of_conf, is_port_number, listen_in, other_key as other_key_in, text_in, worker_count as worker_count_in, workers_in};
ghost use Rattle.conf_file.specs.Reading.{ConfAnswers};

use crate::conf::Conf;
use crate::fault::{ConfFault, ConfFlaw, ConfKey};
use kv_base::{Blob, PathText, read_u64};
use std::alloc::Global;
use toml::{Table, Value};

/// The value at a key.
fn value_at<'a>(table: &'a Table, key: &str) -> Option<&'a Value>
    ensures { option_map (λ value. view value.now) result ≡ get_member key.now (table_view table.now) }
{
    table.get(key)
}

/// The text at a key, which has to be there.
fn text(key: ConfKey, value: Option<&Value>) -> Result<&str, ConfFlaw>
    ensures { MatchResult result
        (λ text. text_in key (option_map (λ v. view v.now) value.entry) ≡ Ok text.now)
        (λ flaw. text_in key (option_map (λ v. view v.now) value.entry) ≡ Err flaw) }
{
    let Some(value) = value else {
        return Err(ConfFlaw::Missing(key));
    };
    match value.as_str() {
        Some(text) => Ok(text),
        None => Err(ConfFlaw::Off(key)),
    }
}

fn dir(value: Option<&Value>) -> Result<&str, ConfFlaw>
    ensures { MatchResult result
        (λ text. dir_in (option_map (λ v. view v.now) value.entry) ≡ Ok text.now)
        (λ flaw. dir_in (option_map (λ v. view v.now) value.entry) ≡ Err flaw) }
{
    let path = text(ConfKey::Dir, value)?;
    if path.is_empty() {
        return Err(ConfFlaw::Off(ConfKey::Dir));
    }
    Ok(path)
}

fn is_port(text: &[u8]) -> bool
    ensures { result ≡ is_port_number (read_u64_in text.now) }
{
    match read_u64(text) {
        Some(port) => port <= u16::MAX as u64,
        None => false,
    }
}

/// The place of the last `:`.
fn last_colon(text: &[u8]) -> Option<usize>
    ensures place { result ≡ rfind_below colon text.now (length text.now) }
    ensures bound { IfSome result (λ place. place < length text.now) }
{
    let mut end = text.len();
    'places: while end > 0 {
        end -= 1;
        if text[end] == b':' {
            return Some(end);
        }
    }
    None
}

fn are_host_port(host: &[u8], port: &[u8]) -> bool
    ensures { result ≡ (not (length host.now == 0) && is_port_number (read_u64_in port.now)) }
{
    !host.is_empty() && is_port(port)
}

fn is_address(text: &[u8]) -> bool
    ensures { result ≡ is_address_text text.now }
{
    let Some(place) = last_colon(text) else {
        return false;
    };
    let (host, rest) = text.split_at(place);
    let (_, port) = rest.split_at(1);
    are_host_port(host, port)
}

fn listen(value: Option<&Value>) -> Result<&str, ConfFlaw>
    ensures { MatchResult result
        (λ text. listen_in (option_map (λ v. view v.now) value.entry) ≡ Ok text.now)
        (λ flaw. listen_in (option_map (λ v. view v.now) value.entry) ≡ Err flaw) }
{
    let address = text(ConfKey::Listen, value)?;
    if !is_address(address.as_bytes()) {
        return Err(ConfFlaw::Off(ConfKey::Listen));
    }
    Ok(address)
}

/// How many connections are served at once, where the configuration does not say.
const DEFAULT_WORKERS: usize = 4;

fn worker_count(count: i64) -> Result<usize, ConfFlaw>
    ensures { result ≡ worker_count_in count }
{
    if 1 <= count && count <= 64 {
        Ok(count.unsigned_abs() as usize)
    } else {
        Err(ConfFlaw::Off(ConfKey::Workers))
    }
}

fn workers(value: Option<&Value>) -> Result<usize, ConfFlaw>
    ensures { result ≡ workers_in (option_map (λ v. view v.now) value.entry) }
{
    let Some(value) = value else {
        return Ok(DEFAULT_WORKERS);
    };
    match value.as_integer() {
        Some(count) => worker_count(count),
        None => Err(ConfFlaw::Off(ConfKey::Workers)),
    }
}

fn is_conf_key(name: &str) -> bool
    ensures { result ≡ is_key_of_conf name.now }
{
    name == "dir" || name == "listen" || name == "workers"
}

/// The first key of the table that is no key of a configuration.
fn other_key(table: &Table) -> Option<&str>
    ensures { option_map (λ name. name.now) result ≡ other_key_in (table_view table.now) }
{
    'names: for (name, _value) in table.iter() {
        if !is_conf_key(name.as_str()) {
            return Some(name.as_str());
        }
    }
    None
}

/// The configuration that a table is.
pub fn conf_of(alloc: Global, table: &Table) -> Result<Conf, ConfFault>
    ensures { ConfAnswers (conf_in (table_view table.now)) result }
{
    if let Some(name) = other_key(table) {
        let name = Blob::copy(alloc, name.as_bytes())?;
        return Err(ConfFault::Conf(ConfFlaw::Unknown(name)));
    }
    let dir = dir(value_at(table, "dir"))?;
    let listen = listen(value_at(table, "listen"))?;
    let workers = workers(value_at(table, "workers"))?;
    let dir = PathText::new(alloc, dir)?;
    let listen = PathText::new(alloc, listen)?;
    Ok(Conf {
        dir,
        listen,
        workers,
    })
}
