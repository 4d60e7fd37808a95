ghost use Rattle.std.specs.Prelude.{◌≡◌};
ghost use Rattle.row_model.specs.Replays.{do_rise};

use batch_codec::Record;

/// Is each record's sequence above that of the record before it?
pub fn sequences_rise(records: &[Record]) -> bool
    ensures { result ≡ do_rise records.now }
{
    let Some((first, rest)) = records.split_first() else {
        return true;
    };
    let mut last = first.seq;
    for record in rest {
        if record.seq <= last {
            return false;
        }
        last = record.seq;
    }
    true
}
