//! Which request a finished job ends.

ghost use Rattle.std.specs.Prelude.{◌≡◌, IfNone, IfSome, option_map};
ghost use Rattle.writeback.specs.Flights.{ended};
ghost use Rattle.writeback.specs.Requests.{request_of};
ghost use Rattle.cachecore.specs.Ending.{request_ended};

use blockdev::Finished;
use pc_types::Kind;
use writeback::{Request, Requests};

/// Takes out the request that a finished job ends. None where no request of the cache of this name, of this kind and of the job's block
/// is in flight with the job's serial; then nothing changes.
pub fn take_ended(
    requests: &mut Requests,
    name: u64,
    kind: Kind,
    finished: &Finished,
) -> Option<Request>
    ensures request { option_map request_of result ≡ request_ended name requests.old.requests kind finished.now }
    ensures ended { IfSome result (λ _. requests.new ≡ ended requests.old finished.now.serial) }
    ensures same { IfNone result (requests.new ≡ requests.old) }
{
    if finished.cache() != name || finished.kind() != kind {
        return None;
    }
    requests.end_of(finished.serial(), kind, finished.block())
}
