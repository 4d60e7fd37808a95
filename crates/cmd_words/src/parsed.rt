use redis_model::{Command, Upkeep};

/// What the words of a request ask for.
#[derive(Drop)]
pub enum Parsed {
    /// A data command.
    Data(Command),
    /// `MULTI`: a transaction begins (Redis command reference, as the next three).
    Multi,
    /// `EXEC`: the commands of the transaction are carried out.
    Exec,
    /// `DISCARD`: the transaction is given up.
    Discard,
    /// `QUIT`: the connection ends.
    Quit,
    /// `KVR PIN`: the caller keeps the keys as they are now (this server's own, as the next two).
    Pin,
    /// `KVR UNPIN`: the caller lets them go.
    Unpin,
    /// `KVR FLUSH`, `KVR COMPACT [level]` and `KVR LEVELS`.
    Upkeep(Upkeep),
}
