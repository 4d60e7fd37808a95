ghost use Rattle.std.specs.Prelude.{◌≡◌};

/// What a crash makes of a change that is not durable.
pub enum Fate {
    /// It is there.
    Whole,
    /// It is not there.
    Missing,
    /// A write is there in part, and in part other bytes are.
    Torn,
}

impl Fate {
    ghost use Rattle.kv_fakes.specs.Crash.{fate};

    /// The fate that a number gives, by its two highest bits.
    pub fn of(number: u64) -> Fate
        ensures { result ≡ fate number }
    {
        let quarter = number / (1 << 62);
        if quarter == 0 {
            Fate::Whole
        } else if quarter == 1 {
            Fate::Missing
        } else {
            Fate::Torn
        }
    }
}
