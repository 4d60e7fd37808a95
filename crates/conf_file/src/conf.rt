//! What a configuration says.

use kv_base::PathText;

/// The configuration of a server.
#[derive(Debug, Drop)]
pub struct Conf {
    /// The folder of the store, which is not empty.
    pub dir: PathText,
    /// Where the server listens: `HOST:PORT`. With port 0 the system picks one.
    pub listen: PathText,
    /// How many connections are served at once: 1 to 64.
    pub workers: usize,
}
