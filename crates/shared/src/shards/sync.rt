//! Fsync, of a file or of a range of its pages.

ghost use Rattle.std.specs.Prelude.{◌≡◌, ◌+◌, ◌≢◌, ◌<◌, ◌≤◌, ℕ, Err, None, false, true};
ghost use Rattle.pc_types.specs.declared.limits.TheConstants.{LAST_PAGE};
ghost use Rattle.pc_types.specs.declared.refusal.Refusal.TheVariants.{BadHandle, Stranger};
ghost use Rattle.shared.specs.ShardCalls.{Fsyncs};
ghost use Rattle.shared.specs.ShardSeats.{AreSeated, OnlyAt, is_of, part};

use crate::cache::SharedCache;
use crate::handle::Handle;
use crate::shards::cache::ShardedCache;
use crate::shards::call::SeatCall;
pub use crate::shards::durable::ShardDurable;
use crate::shards::handle::ShardHandle;
use crate::shards::naming::ShardNaming;
use crate::shards::seat::ShardSeat;
use blockdev::BlockDevice;
use held::denied::{Denied, without_slip};
use held::log::Seat;
use held::naming::Naming;
use pc_types::limits::LAST_PAGE;
use pc_types::{PageIndex, Refusal};
use std::marker::PhantomData;
use std::sync::Wait;
use trail::Trail;

#[derive(Drop)]
struct FsyncRange<'h, B> {
    handle: &'h mut Handle,
    first: PageIndex,
    last: PageIndex,
    // which shards
    of: PhantomData<B>,
}

impl<'h, B: ShardNaming, D: BlockDevice, T: Trail> SeatCall<D, T> for FsyncRange<'h, B> {
    type Answer = Result<ShardDurable<B, D>, Denied>;

    ghost owes = { λ n a. ((k : ℕ) × (k < B.shards) × (n.name ≡ (B.names k).name)) × (a.handle.now.cache ≡ n.name → a.handle.now.pass.board ≡ n.board) };

    ghost refuses = { λ a b r. (r ≡ Err (record { refusal = Stranger; slip = None })) × (b.handle.now ≡ a.handle.now) };

    ghost keeps = { λ _ a b _. (b.handle.ghost_name ≡ a.handle.ghost_name) × (b.handle.now ≡ record a.handle.now { pass = b.handle.now.pass }) × (b.handle.now.pass.board ≡ a.handle.now.pass.board) };

    ghost does = { λ n a b r s t. Fsyncs n a.first a.last a.handle.now b.handle.now r s t };

    fn on<N: Naming, R: Wait>(
        &mut self,
        rt: &R,
        own: &mut Seat,
        cache: &SharedCache<N, D, T>,
    ) -> Result<ShardDurable<B, D>, Denied> {
        match cache.fsync_range(rt, own, self.handle, self.first, self.last) {
            Ok(durable) => Ok(ShardDurable::of(durable)),
            Err(denied) => Err(denied),
        }
    }
}

impl<B: ShardNaming, D: BlockDevice, T: Trail> ShardedCache<B, D, T> {
    /// Writes the file's dirty pages to the device of its shard. Refused by `Io` where a write of the file failed, during the call or
    /// since the handle was last told: with the code of the last such failure, and the handle is told of all then. Without a slip `Io`
    /// is the device's, which could not make its writes durable.
    pub fn fsync<R: Wait>(
        &self,
        rt: &R,
        seat: &mut ShardSeat,
        handle: &mut ShardHandle,
    ) -> Result<ShardDurable<B, D>, Denied>
        requires seat { AreSeated B.names seat.old }
        requires came { handle.old.handle.cache ≡ (B.names handle.old.shard).name → handle.old.handle.pass.board ≡ (B.names handle.old.shard).board }
        ensures absent { B.shards ≤ handle.old.shard → (result ≡ Err (record { refusal = BadHandle; slip = None })) × (seat.new ≡ seat.old) × (handle.new ≡ handle.old) }
        ensures foreign { handle.old.shard < B.shards → is_of (B.names handle.old.shard).name seat.old handle.old.shard ≡ false → (result ≡ Err (record { refusal = Stranger; slip = None })) × (seat.new ≡ seat.old) × (handle.new ≡ handle.old) }
        ensures others { OnlyAt handle.old.shard seat.old seat.new }
        ensures seated { AreSeated B.names seat.new }
        ensures same { (handle.new.shard ≡ handle.old.shard) × (handle.new.handle ≡ record handle.old.handle { pass = handle.new.handle.pass }) × (handle.new.handle.pass.board ≡ handle.old.handle.pass.board) }
        ensures call { handle.old.shard < B.shards → is_of (B.names handle.old.shard).name seat.old handle.old.shard ≡ true → Fsyncs (B.names handle.old.shard) (record { 0 = 0 }) (record { 0 = LAST_PAGE }) handle.old.handle handle.new.handle result (part seat.old handle.old.shard) (part seat.new handle.old.shard) }
    {
        self.fsync_range(rt, seat, handle, PageIndex(0), PageIndex(LAST_PAGE))
    }

    /// Writes those of the file's pages from `first` to `last` to the device of its shard that are dirty. Refused by `BadRange` where
    /// `first` is past `last`, and by `Io` as `fsync` is: also where the write that failed was of a page outside the range.
    #[tactic(auto, using(crate::proofs::ShardSeated::seated_on))]
    pub fn fsync_range<R: Wait>(
        &self,
        rt: &R,
        seat: &mut ShardSeat,
        handle: &mut ShardHandle,
        first: PageIndex,
        last: PageIndex,
    ) -> Result<ShardDurable<B, D>, Denied>
        requires seat { AreSeated B.names seat.old }
        requires came { handle.old.handle.cache ≡ (B.names handle.old.shard).name → handle.old.handle.pass.board ≡ (B.names handle.old.shard).board }
        ensures absent { B.shards ≤ handle.old.shard → (result ≡ Err (record { refusal = BadHandle; slip = None })) × (seat.new ≡ seat.old) × (handle.new ≡ handle.old) }
        ensures foreign { handle.old.shard < B.shards → is_of (B.names handle.old.shard).name seat.old handle.old.shard ≡ false → (result ≡ Err (record { refusal = Stranger; slip = None })) × (seat.new ≡ seat.old) × (handle.new ≡ handle.old) }
        ensures others { OnlyAt handle.old.shard seat.old seat.new }
        ensures seated { AreSeated B.names seat.new }
        ensures same { (handle.new.shard ≡ handle.old.shard) × (handle.new.handle ≡ record handle.old.handle { pass = handle.new.handle.pass }) × (handle.new.handle.pass.board ≡ handle.old.handle.pass.board) }
        ensures call { handle.old.shard < B.shards → is_of (B.names handle.old.shard).name seat.old handle.old.shard ≡ true → Fsyncs (B.names handle.old.shard) first last handle.old.handle handle.new.handle result (part seat.old handle.old.shard) (part seat.new handle.old.shard) }
    {
        if handle.shard >= self.shards {
            return Err(without_slip(Refusal::BadHandle));
        }
        let Some(own) = seat.seats.get_mut(handle.shard as usize) else {
            return Err(without_slip(Refusal::Stranger));
        };
        let mut call = FsyncRange {
            handle: &mut handle.handle,
            first,
            last,
            of: PhantomData::<B>,
        };
        self.caches.ask(rt, handle.shard, own, &mut call)
    }
}
