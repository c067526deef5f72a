//! Files and handles.

ghost use Rattle.std.specs.Prelude.{◌≡◌, ◌+◌, ◌≢◌, ◌/◌, ◌%◌, ◌<◌, ◌≤◌, ⊤, Err, IfErr, IfNone, IfOk, IfSome, None, Result, Some, false, true};
ghost use Rattle.atomic_table.specs.Seated.{TableId};
ghost use Rattle.held.specs.declared.denied.Denied.{Denied};
ghost use Rattle.held.specs.declared.log.Slip.{Slip};
ghost use Rattle.pc_types.specs.declared.ids.FileId.{FileId};
ghost use Rattle.pc_types.specs.declared.refusal.Refusal.TheVariants.{BadHandle, NoSuchFile, Stranger};
ghost use Rattle.shared.specs.Seen.{HandleSeen};
ghost use Rattle.shared.specs.ShardCalls.{Closes, Creates, Opens, number_of};
ghost use Rattle.shared.specs.ShardResults.{closed_in, numbered, opened_in};
ghost use Rattle.shared.specs.ShardSeats.{AreSeated, OnlyAt, is_of, part};
ghost use Rattle.shared.specs.declared.shards.denied.CreateDenied.TheVariants.{ByShard, NoShard};

use crate::cache::SharedCache;
use crate::handle::Handle;
use crate::shards::cache::ShardedCache;
use crate::shards::call::SeatCall;
use crate::shards::denied::CreateDenied;
use crate::shards::handle::ShardHandle;
use crate::shards::naming::ShardNaming;
use crate::shards::seat::ShardSeat;
use blockdev::BlockDevice;
use held::denied::{Denied, without_slip};
use held::log::{Seat, Slip};
use held::naming::Naming;
use pc_types::{FileId, Refusal};
use std::sync::Wait;
use trail::Trail;

#[derive(Drop)]
struct Create;

impl<D: BlockDevice, T: Trail> SeatCall<D, T> for Create {
    type Answer = Result<(FileId, Slip), Denied>;

    ghost owes = { λ _ _. ⊤ };

    ghost refuses = { λ _ _ r. r ≡ Err (record { refusal = Stranger; slip = None }) };

    ghost keeps = { λ _ _ _ r. IfOk r (λ x. x.0.0 < 64) };

    ghost does = { λ n _ _ r s t. Creates n r s t };

    fn on<B: Naming, R: Wait>(
        &mut self,
        rt: &R,
        own: &mut Seat,
        cache: &SharedCache<B, D, T>,
    ) -> Result<(FileId, Slip), Denied> {
        cache.create(rt, own)
    }
}

#[derive(Drop)]
struct Open {
    file: FileId,
    append: bool,
}

impl<D: BlockDevice, T: Trail> SeatCall<D, T> for Open {
    type Answer = Result<(Handle, Slip), Denied>;

    ghost owes = { λ _ _. ⊤ };

    ghost refuses = { λ _ _ r. r ≡ Err (record { refusal = Stranger; slip = None }) };

    ghost keeps = { λ n _ _ r. IfOk r (λ x. x.0.pass.board ≡ n.board) };

    ghost does = { λ n a _ r s t. Opens n a.file a.append r s t };

    fn on<B: Naming, R: Wait>(
        &mut self,
        rt: &R,
        own: &mut Seat,
        cache: &SharedCache<B, D, T>,
    ) -> Result<(Handle, Slip), Denied> {
        cache.open(rt, own, self.file, self.append)
    }
}

#[derive(Drop)]
struct CloseHandle {
    // until the cache takes it
    handle: Option<Handle>,
}

impl<D: BlockDevice, T: Trail> SeatCall<D, T> for CloseHandle {
    type Answer = Result<Slip, (Denied, Handle)>;

    ghost owes = { λ n a. (h : HandleSeen) × (a.handle ≡ Some h) × (h.cache ≡ n.name → h.pass.board ≡ n.board) };

    ghost refuses = { λ a _ r. IfSome a.handle (λ h. r ≡ Err (record { refusal = Stranger; slip = None }, h)) };

    ghost keeps = { λ _ a _ r. IfSome a.handle (λ h. IfErr r (λ d. d.1 ≡ h)) };

    ghost does = { λ n a _ r s t. IfSome a.handle (λ h. Closes n h r s t) };

    fn on<B: Naming, R: Wait>(
        &mut self,
        rt: &R,
        own: &mut Seat,
        cache: &SharedCache<B, D, T>,
    ) -> Result<Slip, (Denied, Handle)> {
        let Some(handle) = self.handle.take() else {
            unreachable!()
        };
        cache.close_handle(rt, own, handle)
    }
}

impl<B: ShardNaming, D: BlockDevice, T: Trail> ShardedCache<B, D, T> {
    /// Makes a new file in a shard.
    pub fn create_in<R: Wait>(
        &self,
        rt: &R,
        seat: &mut ShardSeat,
        shard: u64,
    ) -> Result<(FileId, Slip), CreateDenied>
        requires seat { AreSeated B.names seat.old }
        ensures absent { B.shards ≤ shard → (result ≡ Err NoShard) × (seat.new ≡ seat.old) }
        ensures foreign { shard < B.shards → is_of (B.names shard).name seat.old shard ≡ false → (result ≡ Err (ByShard (record { refusal = Stranger; slip = None }))) × (seat.new ≡ seat.old) }
        ensures others { OnlyAt shard seat.old seat.new }
        ensures seated { AreSeated B.names seat.new }
        ensures stands { IfOk result (λ r. r.0.0 % B.shards ≡ shard) }
        ensures call { shard < B.shards → is_of (B.names shard).name seat.old shard ≡ true → (r : Result (FileId × Slip) Denied) × Creates (B.names shard) r (part seat.old shard) (part seat.new shard) × (result ≡ numbered B.shards shard r) }
    {
        match self.create_at(rt, seat, shard) {
            Some(made) => self.number(shard, made),
            None => Err(CreateDenied::NoShard),
        }
    }

    /// Makes a new file in a shard, or answers nothing where there is no such shard.
    #[tactic(auto, using(crate::proofs::ShardSeated::seated_on))]
    fn create_at<R: Wait>(
        &self,
        rt: &R,
        seat: &mut ShardSeat,
        shard: u64,
    ) -> Option<Result<(FileId, Slip), Denied>>
        requires seat { AreSeated B.names seat.old }
        ensures absent { IfNone result ((B.shards ≤ shard) × (seat.new ≡ seat.old)) }
        ensures there { IfSome result (λ _. shard < B.shards) }
        ensures few { IfSome result (λ r. IfOk r (λ x. x.0.0 < 64)) }
        ensures foreign { is_of (B.names shard).name seat.old shard ≡ false → IfSome result (λ r. (r ≡ Err (record { refusal = Stranger; slip = None })) × (seat.new ≡ seat.old)) }
        ensures others { OnlyAt shard seat.old seat.new }
        ensures seated { AreSeated B.names seat.new }
        ensures call { is_of (B.names shard).name seat.old shard ≡ true → IfSome result (λ r. Creates (B.names shard) r (part seat.old shard) (part seat.new shard)) }
    {
        if shard >= self.shards {
            return None;
        }
        let Some(own) = seat.seats.get_mut(shard as usize) else {
            return Some(Err(without_slip(Refusal::Stranger)));
        };
        Some(self.caches.ask(rt, shard, own, &mut Create))
    }

    /// The answer of a shard, with the file's number among those of all shards.
    fn number(
        &self,
        shard: u64,
        made: Result<(FileId, Slip), Denied>,
    ) -> Result<(FileId, Slip), CreateDenied>
        ensures { result ≡ numbered B.shards shard made }
    {
        match made {
            Ok((file, slip)) => Ok((number_of(file, shard, self.shards), slip)),
            Err(denied) => Err(CreateDenied::ByShard(denied)),
        }
    }

    /// Opens a file. File F stands in shard F mod n, as its file F / n. The handle's cursor is at the beginning; with `append` its writes
    /// go to the end of the file.
    pub fn open<R: Wait>(
        &self,
        rt: &R,
        seat: &mut ShardSeat,
        file: FileId,
        append: bool,
    ) -> Result<(ShardHandle, Slip), Denied>
        requires seat { AreSeated B.names seat.old }
        ensures foreign { is_of (B.names (file.0 % B.shards)).name seat.old (file.0 % B.shards) ≡ false → (result ≡ Err (record { refusal = Stranger; slip = None })) × (seat.new ≡ seat.old) }
        ensures others { OnlyAt (file.0 % B.shards) seat.old seat.new }
        ensures seated { AreSeated B.names seat.new }
        ensures at { IfOk result (λ r. r.0.shard ≡ file.0 % B.shards) }
        ensures board { IfOk result (λ r. r.0.handle.pass.board ≡ (B.names r.0.shard).board) }
        ensures call { is_of (B.names (file.0 % B.shards)).name seat.old (file.0 % B.shards) ≡ true → Opens (B.names (file.0 % B.shards)) (record { 0 = file.0 / B.shards }) append (opened_in result) (part seat.old (file.0 % B.shards)) (part seat.new (file.0 % B.shards)) }
    {
        let shard = file.0 % self.shards;
        let own = FileId(file.0 / self.shards);
        self.open_at(rt, seat, shard, own, append)
    }

    /// The number of the handle's file among those of all shards.
    pub fn file_of(&self, handle: &ShardHandle) -> FileId
        ensures { result.0 ≡ number_of B.shards handle.now.shard handle.now.handle.file.0 }
    {
        number_of(handle.handle.file(), handle.shard, self.shards)
    }

    /// Opens a shard's own file.
    #[tactic(auto, using(crate::proofs::ShardSeated::seated_on))]
    fn open_at<R: Wait>(
        &self,
        rt: &R,
        seat: &mut ShardSeat,
        shard: u64,
        file: FileId,
        append: bool,
    ) -> Result<(ShardHandle, Slip), Denied>
        requires seat { AreSeated B.names seat.old }
        ensures absent { B.shards ≤ shard → (result ≡ Err (record { refusal = NoSuchFile; slip = None })) × (seat.new ≡ seat.old) }
        ensures foreign { shard < B.shards → is_of (B.names shard).name seat.old shard ≡ false → (result ≡ Err (record { refusal = Stranger; slip = None })) × (seat.new ≡ seat.old) }
        ensures others { OnlyAt shard seat.old seat.new }
        ensures seated { AreSeated B.names seat.new }
        ensures at { IfOk result (λ r. r.0.shard ≡ shard) }
        ensures board { IfOk result (λ r. r.0.handle.pass.board ≡ (B.names r.0.shard).board) }
        ensures call { shard < B.shards → is_of (B.names shard).name seat.old shard ≡ true → Opens (B.names shard) file append (opened_in result) (part seat.old shard) (part seat.new shard) }
    {
        if shard >= self.shards {
            return Err(without_slip(Refusal::NoSuchFile));
        }
        let Some(own) = seat.seats.get_mut(shard as usize) else {
            return Err(without_slip(Refusal::Stranger));
        };
        let mut call = Open { file, append };
        in_shard(shard, self.caches.ask(rt, shard, own, &mut call))
    }

    /// Closes a handle. It comes back where that is refused, as by `Busy` while a sync by it is in progress.
    #[tactic(auto, using(crate::proofs::ShardSeated::seated_on, crate::proofs::ShardBack::comes_back))]
    pub fn close_handle<R: Wait>(
        &self,
        rt: &R,
        seat: &mut ShardSeat,
        handle: ShardHandle,
    ) -> Result<Slip, (Denied, ShardHandle)>
        requires seat { AreSeated B.names seat.old }
        requires came { handle.handle.cache ≡ (B.names handle.shard).name → handle.handle.pass.board ≡ (B.names handle.shard).board }
        ensures absent { B.shards ≤ handle.shard → (result ≡ Err (record { refusal = BadHandle; slip = None }, handle)) × (seat.new ≡ seat.old) }
        ensures foreign { handle.shard < B.shards → is_of (B.names handle.shard).name seat.old handle.shard ≡ false → (result ≡ Err (record { refusal = Stranger; slip = None }, handle)) × (seat.new ≡ seat.old) }
        ensures others { OnlyAt handle.shard seat.old seat.new }
        ensures seated { AreSeated B.names seat.new }
        ensures call { handle.shard < B.shards → is_of (B.names handle.shard).name seat.old handle.shard ≡ true → Closes (B.names handle.shard) handle.handle (closed_in result) (part seat.old handle.shard) (part seat.new handle.shard) }
        ensures back { IfErr result (λ d. d.1 ≡ handle) }
    {
        let ShardHandle { shard, handle } = handle;
        if shard >= self.shards {
            return Err((
                without_slip(Refusal::BadHandle),
                ShardHandle { shard, handle },
            ));
        }
        let Some(own) = seat.seats.get_mut(shard as usize) else {
            return Err((
                without_slip(Refusal::Stranger),
                ShardHandle { shard, handle },
            ));
        };
        let mut call = CloseHandle {
            handle: Some(handle),
        };
        back_in_shard(shard, self.caches.ask(rt, shard, own, &mut call))
    }
}

/// The answer of a shard to `open`, with its number.
fn in_shard(
    shard: u64,
    opened: Result<(Handle, Slip), Denied>,
) -> Result<(ShardHandle, Slip), Denied>
    ensures is { opened_in result ≡ opened }
    ensures err { IfErr opened (λ d. result ≡ Err d) }
    ensures at { IfOk result (λ r. r.0.shard ≡ shard) }
    ensures board { (b : TableId) → IfOk opened (λ o. o.0.pass.board ≡ b) → IfOk result (λ r. r.0.handle.pass.board ≡ b) }
{
    match opened {
        Ok((handle, slip)) => Ok((ShardHandle { shard, handle }, slip)),
        Err(denied) => Err(denied),
    }
}

/// The answer of a shard to `close_handle`, with the shard's number where the handle comes back.
fn back_in_shard(
    shard: u64,
    closed: Result<Slip, (Denied, Handle)>,
) -> Result<Slip, (Denied, ShardHandle)>
    ensures is { closed_in result ≡ closed }
    ensures err { IfErr closed (λ e. result ≡ Err (e.0, record { shard = shard; handle = e.1 })) }
{
    match closed {
        Ok(slip) => Ok(slip),
        Err((denied, handle)) => Err((denied, ShardHandle { shard, handle })),
    }
}

/// The number of a shard's file among those of so many shards. A shard has 64 files at most.
fn number_of(file: FileId, shard: u64, shards: u64) -> FileId
    ensures { result.0 ≡ number_of shards shard file.0 }
{
    FileId(file.0.saturating_mul(shards).saturating_add(shard))
}
