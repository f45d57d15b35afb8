// Whether an event's samples are at hand.
ghost use Rattle.std.specs.Prelude.{◌≡◌, length};
ghost use Rattle.replay_stream.specs.Giving.{piece};
ghost use Rattle.replay_entry.specs.Supplies.{supply_of};

use crate::Supply;
use recording::Form;

pub fn of(form: Form, used: u64, total: u32, count: u32, bytes: &[u8], ended: bool) -> Supply
    ensures { result ≡ supply_of form used total count (piece bytes.now ended) }
{
    let most = total as u64;
    if most < used {
        return Supply::Lacking;
    }
    let samples = used + count as u64;
    if most < samples {
        return Supply::Lacking;
    }
    if recording::bytes_of(form, count) as usize <= bytes.len() {
        return Supply::AtHand;
    }
    if ended {
        return Supply::Lacking;
    }
    Supply::Awaited
}
