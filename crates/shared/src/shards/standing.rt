//! Where the files of a shard stand on its device.

ghost use Rattle.std.specs.Prelude.{◌≡◌, ◌+◌, ◌≢◌, ◌/◌, ◌%◌, ◌<◌, ◌≤◌, ⊤, Err, false, true};
ghost use Rattle.cachecore.specs.Standing.{SpotIs};
ghost use Rattle.pc_types.specs.declared.refusal.Refusal.TheVariants.{NoSuchFile, Stranger};
ghost use Rattle.shared.specs.ShardCalls.{Lists, Places};
ghost use Rattle.shared.specs.ShardSeats.{AreSeated, OnlyAt, is_of, part};

use crate::cache::SharedCache;
use crate::shards::cache::ShardedCache;
use crate::shards::call::SeatCall;
use crate::shards::naming::ShardNaming;
use crate::shards::seat::ShardSeat;
use blockdev::BlockDevice;
use cachecore::Placed;
use catalog::Catalog;
use held::log::Seat;
use held::naming::Naming;
use pc_types::{FileId, PageIndex, Refusal};
use std::sync::Wait;
use trail::Trail;

#[derive(Drop)]
struct BlockOf {
    file: FileId,
    page: PageIndex,
}

impl<D: BlockDevice, T: Trail> SeatCall<D, T> for BlockOf {
    type Answer = Result<Option<Placed>, Refusal>;

    ghost owes = { λ _ _. ⊤ };

    ghost refuses = { λ _ _ r. r ≡ Err Stranger };

    ghost keeps = { λ _ _ _ _. ⊤ };

    ghost does = { λ n a _ r s t. Places n (λ m. SpotIs m a.file.0 a.page.0 r) s t };

    fn on<B: Naming, R: Wait>(
        &mut self,
        rt: &R,
        own: &mut Seat,
        cache: &SharedCache<B, D, T>,
    ) -> Result<Option<Placed>, Refusal> {
        cache.block_of(rt, own, self.file, self.page)
    }
}

#[derive(Drop)]
struct ListFiles;

impl<D: BlockDevice, T: Trail> SeatCall<D, T> for ListFiles {
    type Answer = Result<Catalog, Refusal>;

    ghost owes = { λ _ _. ⊤ };

    ghost refuses = { λ _ _ r. r ≡ Err Stranger };

    ghost keeps = { λ _ _ _ _. ⊤ };

    ghost does = { λ n _ _ r s t. Lists n r s t };

    fn on<B: Naming, R: Wait>(
        &mut self,
        rt: &R,
        own: &mut Seat,
        cache: &SharedCache<B, D, T>,
    ) -> Result<Catalog, Refusal> {
        cache.catalog(rt, own)
    }
}

impl<B: ShardNaming, D: BlockDevice, T: Trail> ShardedCache<B, D, T> {
    /// Where a page of a file stands on the device of its shard, and how many bytes of the block are the page's, as the shard's cache
    /// tells it. It is no event: the seat sees the shard's history as it is.
    pub fn block_of<R: Wait>(
        &self,
        rt: &R,
        seat: &mut ShardSeat,
        file: FileId,
        page: PageIndex,
    ) -> Result<Option<Placed>, Refusal>
        requires seat { AreSeated B.names seat.old }
        ensures foreign { is_of (B.names (file.0 % B.shards)).name seat.old (file.0 % B.shards) ≡ false → (result ≡ Err Stranger) × (seat.new ≡ seat.old) }
        ensures others { OnlyAt (file.0 % B.shards) seat.old seat.new }
        ensures seated { AreSeated B.names seat.new }
        ensures call { is_of (B.names (file.0 % B.shards)).name seat.old (file.0 % B.shards) ≡ true → Places (B.names (file.0 % B.shards)) (λ s. SpotIs s (file.0 / B.shards) page.0 result) (part seat.old (file.0 % B.shards)) (part seat.new (file.0 % B.shards)) }
    {
        let shard = file.0 % self.shards;
        let own = FileId(file.0 / self.shards);
        self.block_at(rt, seat, shard, own, page)
    }

    /// Where a page of a shard's own file stands.
    #[tactic(auto, using(crate::proofs::ShardSeated::seated_on))]
    fn block_at<R: Wait>(
        &self,
        rt: &R,
        seat: &mut ShardSeat,
        shard: u64,
        file: FileId,
        page: PageIndex,
    ) -> Result<Option<Placed>, Refusal>
        requires seat { AreSeated B.names seat.old }
        ensures foreign { shard < B.shards → is_of (B.names shard).name seat.old shard ≡ false → (result ≡ Err Stranger) × (seat.new ≡ seat.old) }
        ensures others { OnlyAt shard seat.old seat.new }
        ensures seated { AreSeated B.names seat.new }
        ensures call { shard < B.shards → is_of (B.names shard).name seat.old shard ≡ true → Places (B.names shard) (λ s. SpotIs s file.0 page.0 result) (part seat.old shard) (part seat.new shard) }
    {
        if shard >= self.shards {
            return Err(Refusal::NoSuchFile);
        }
        let Some(own) = seat.seats.get_mut(shard as usize) else {
            return Err(Refusal::Stranger);
        };
        let mut call = BlockOf { file, page };
        self.caches.ask(rt, shard, own, &mut call)
    }

    /// The files of a shard as they stand on its device, by the shard's own numbers: file F there is file F * n + shard here. `Stranger`
    /// where there is no such shard, or the seat is of another cache; else as the shard's cache tells it.
    #[tactic(auto, using(crate::proofs::ShardSeated::seated_on))]
    pub fn catalog<R: Wait>(
        &self,
        rt: &R,
        seat: &mut ShardSeat,
        shard: u64,
    ) -> Result<Catalog, Refusal>
        requires seat { AreSeated B.names seat.old }
        ensures absent { B.shards ≤ shard → (result ≡ Err Stranger) × (seat.new ≡ seat.old) }
        ensures foreign { shard < B.shards → is_of (B.names shard).name seat.old shard ≡ false → (result ≡ Err Stranger) × (seat.new ≡ seat.old) }
        ensures others { OnlyAt shard seat.old seat.new }
        ensures seated { AreSeated B.names seat.new }
        ensures call { shard < B.shards → is_of (B.names shard).name seat.old shard ≡ true → Lists (B.names shard) result (part seat.old shard) (part seat.new shard) }
    {
        if shard >= self.shards {
            return Err(Refusal::Stranger);
        }
        let Some(own) = seat.seats.get_mut(shard as usize) else {
            return Err(Refusal::Stranger);
        };
        self.caches.ask(rt, shard, own, &mut ListFiles)
    }
}
