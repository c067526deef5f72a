//! Reads and writes, where the next one begins, and how long a file is.

ghost use Rattle.std.specs.Prelude.{◌≡◌, ◌+◌, ◌≢◌, ◌<◌, ◌≤◌, ⊤, Err, None, false, true};
ghost use Rattle.pc_types.specs.declared.refusal.Refusal.TheVariants.{BadHandle, Stranger};
ghost use Rattle.shared.specs.ShardCalls.{Cuts, Measures, Moves, Reads, ReadsOn, Writes, WritesOn};
ghost use Rattle.shared.specs.ShardSeats.{AreSeated, OnlyAt, is_of, part};

use crate::cache::SharedCache;
use crate::handle::Handle;
use crate::shards::cache::ShardedCache;
use crate::shards::call::SeatCall;
use crate::shards::handle::ShardHandle;
use crate::shards::naming::ShardNaming;
use crate::shards::seat::ShardSeat;
use crate::writes::Wrote;
use blockdev::BlockDevice;
use cursor::Seek;
use held::denied::{Denied, without_slip};
use held::log::{Seat, Slip};
use held::naming::Naming;
use pc_types::Refusal;
use std::sync::Wait;
use trail::Trail;

#[derive(Drop)]
struct Pread<'h, 'o> {
    handle: &'h Handle,
    offset: u64,
    out: &'o mut [u8],
}

impl<'h, 'o, D: BlockDevice, T: Trail> SeatCall<D, T> for Pread<'h, 'o> {
    type Answer = Result<(u64, Slip), Denied>;

    ghost owes = { λ _ _. ⊤ };

    ghost refuses = { λ a b r. (r ≡ Err (record { refusal = Stranger; slip = None })) × (b.out.now ≡ a.out.now) };

    ghost keeps = { λ _ a b _. b.out.ghost_name ≡ a.out.ghost_name };

    ghost does = { λ n a b r s t. Reads n a.handle.now a.offset a.out.now b.out.now r s t };

    #[inline(always)]
    fn on<B: Naming, R: Wait>(
        &mut self,
        rt: &R,
        own: &mut Seat,
        cache: &SharedCache<B, D, T>,
    ) -> Result<(u64, Slip), Denied> {
        cache.pread(rt, own, self.handle, self.offset, self.out)
    }
}

#[derive(Drop)]
struct Read<'h, 'o> {
    handle: &'h mut Handle,
    out: &'o mut [u8],
}

impl<'h, 'o, D: BlockDevice, T: Trail> SeatCall<D, T> for Read<'h, 'o> {
    type Answer = Result<(u64, Slip), Denied>;

    ghost owes = { λ _ _. ⊤ };

    ghost refuses = { λ a b r. (r ≡ Err (record { refusal = Stranger; slip = None })) × (b.out.now ≡ a.out.now) × (b.handle.now ≡ a.handle.now) };

    ghost keeps = { λ _ a b _. (b.handle.ghost_name ≡ a.handle.ghost_name) × (b.out.ghost_name ≡ a.out.ghost_name) × (b.handle.now ≡ record a.handle.now { cursor = b.handle.now.cursor }) };

    ghost does = { λ n a b r s t. ReadsOn n a.handle.now b.handle.now a.out.now b.out.now r s t };

    #[inline(always)]
    fn on<B: Naming, R: Wait>(
        &mut self,
        rt: &R,
        own: &mut Seat,
        cache: &SharedCache<B, D, T>,
    ) -> Result<(u64, Slip), Denied> {
        cache.read(rt, own, self.handle, self.out)
    }
}

#[derive(Drop)]
struct SeekTo<'h> {
    handle: &'h mut Handle,
    place: Seek,
}

impl<'h, D: BlockDevice, T: Trail> SeatCall<D, T> for SeekTo<'h> {
    type Answer = Result<(u64, Option<Slip>), Denied>;

    ghost owes = { λ _ _. ⊤ };

    ghost refuses = { λ a b r. (r ≡ Err (record { refusal = Stranger; slip = None })) × (b.handle.now ≡ a.handle.now) };

    ghost keeps = { λ _ a b _. (b.handle.ghost_name ≡ a.handle.ghost_name) × (b.handle.now ≡ record a.handle.now { cursor = b.handle.now.cursor }) };

    ghost does = { λ n a b r s t. Moves n a.place a.handle.now b.handle.now r s t };

    #[inline(always)]
    fn on<B: Naming, R: Wait>(
        &mut self,
        rt: &R,
        own: &mut Seat,
        cache: &SharedCache<B, D, T>,
    ) -> Result<(u64, Option<Slip>), Denied> {
        cache.seek(rt, own, self.handle, self.place)
    }
}

#[derive(Drop)]
struct Pwrite<'h> {
    handle: &'h Handle,
    offset: u64,
    bytes: &'h [u8],
}

impl<'h, D: BlockDevice, T: Trail> SeatCall<D, T> for Pwrite<'h> {
    type Answer = Result<(Wrote, Slip), Denied>;

    ghost owes = { λ _ _. ⊤ };

    ghost refuses = { λ _ _ r. r ≡ Err (record { refusal = Stranger; slip = None }) };

    ghost keeps = { λ _ _ _ _. ⊤ };

    ghost does = { λ n a _ r s t. Writes n a.handle.now a.offset a.bytes.now r s t };

    #[inline(always)]
    fn on<B: Naming, R: Wait>(
        &mut self,
        rt: &R,
        own: &mut Seat,
        cache: &SharedCache<B, D, T>,
    ) -> Result<(Wrote, Slip), Denied> {
        cache.pwrite(rt, own, self.handle, self.offset, self.bytes)
    }
}

#[derive(Drop)]
struct Write<'h, 'b> {
    handle: &'h mut Handle,
    bytes: &'b [u8],
}

impl<'h, 'b, D: BlockDevice, T: Trail> SeatCall<D, T> for Write<'h, 'b> {
    type Answer = Result<(Wrote, Slip), Denied>;

    ghost owes = { λ _ _. ⊤ };

    ghost refuses = { λ a b r. (r ≡ Err (record { refusal = Stranger; slip = None })) × (b.handle.now ≡ a.handle.now) };

    ghost keeps = { λ _ a b _. (b.handle.ghost_name ≡ a.handle.ghost_name) × (b.handle.now ≡ record a.handle.now { cursor = b.handle.now.cursor }) };

    ghost does = { λ n a b r s t. WritesOn n a.handle.now b.handle.now a.bytes.now r s t };

    #[inline(always)]
    fn on<B: Naming, R: Wait>(
        &mut self,
        rt: &R,
        own: &mut Seat,
        cache: &SharedCache<B, D, T>,
    ) -> Result<(Wrote, Slip), Denied> {
        cache.write(rt, own, self.handle, self.bytes)
    }
}

#[derive(Drop)]
struct Truncate<'h> {
    handle: &'h Handle,
    size: u64,
}

impl<'h, D: BlockDevice, T: Trail> SeatCall<D, T> for Truncate<'h> {
    type Answer = Result<Slip, Denied>;

    ghost owes = { λ _ _. ⊤ };

    ghost refuses = { λ _ _ r. r ≡ Err (record { refusal = Stranger; slip = None }) };

    ghost keeps = { λ _ _ _ _. ⊤ };

    ghost does = { λ n a _ r s t. Cuts n a.handle.now a.size r s t };

    #[inline(always)]
    fn on<B: Naming, R: Wait>(
        &mut self,
        rt: &R,
        own: &mut Seat,
        cache: &SharedCache<B, D, T>,
    ) -> Result<Slip, Denied> {
        cache.truncate(rt, own, self.handle, self.size)
    }
}

#[derive(Drop)]
struct Size<'h> {
    handle: &'h Handle,
}

impl<'h, D: BlockDevice, T: Trail> SeatCall<D, T> for Size<'h> {
    type Answer = Result<(u64, Slip), Denied>;

    ghost owes = { λ _ _. ⊤ };

    ghost refuses = { λ _ _ r. r ≡ Err (record { refusal = Stranger; slip = None }) };

    ghost keeps = { λ _ _ _ _. ⊤ };

    ghost does = { λ n a _ r s t. Measures n a.handle.now r s t };

    #[inline(always)]
    fn on<B: Naming, R: Wait>(
        &mut self,
        rt: &R,
        own: &mut Seat,
        cache: &SharedCache<B, D, T>,
    ) -> Result<(u64, Slip), Denied> {
        cache.size(rt, own, self.handle)
    }
}

impl<B: ShardNaming, D: BlockDevice, T: Trail> ShardedCache<B, D, T> {
    /// Reads the bytes from `offset` on into the front of `out`, and answers how many: as many as it takes, and none past the end of
    /// the file. A read touches 16 pages at most.
    #[tactic(auto, using(crate::proofs::ShardSeated::seated_on))]
    pub fn pread<R: Wait>(
        &self,
        rt: &R,
        seat: &mut ShardSeat,
        handle: &ShardHandle,
        offset: u64,
        out: &mut [u8],
    ) -> Result<(u64, Slip), Denied>
        requires seat { AreSeated B.names seat.old }
        ensures absent { B.shards ≤ handle.now.shard → (result ≡ Err (record { refusal = BadHandle; slip = None })) × (seat.new ≡ seat.old) × (out.new ≡ out.old) }
        ensures foreign { handle.now.shard < B.shards → is_of (B.names handle.now.shard).name seat.old handle.now.shard ≡ false → (result ≡ Err (record { refusal = Stranger; slip = None })) × (seat.new ≡ seat.old) × (out.new ≡ out.old) }
        ensures others { OnlyAt handle.now.shard seat.old seat.new }
        ensures seated { AreSeated B.names seat.new }
        ensures call { handle.now.shard < B.shards → is_of (B.names handle.now.shard).name seat.old handle.now.shard ≡ true → Reads (B.names handle.now.shard) handle.now.handle offset out.old out.new result (part seat.old handle.now.shard) (part seat.new handle.now.shard) }
    {
        if handle.shard >= self.shards {
            return Err(without_slip(Refusal::BadHandle));
        }
        let Some(own) = seat.seats.get_mut(handle.shard as usize) else {
            return Err(without_slip(Refusal::Stranger));
        };
        let mut call = Pread {
            handle: &handle.handle,
            offset,
            out,
        };
        self.caches.ask(rt, handle.shard, own, &mut call)
    }

    /// Reads at the cursor, as `pread` does there, and moves the cursor by the count.
    #[tactic(auto, using(crate::proofs::ShardSeated::seated_on))]
    pub fn read<R: Wait>(
        &self,
        rt: &R,
        seat: &mut ShardSeat,
        handle: &mut ShardHandle,
        out: &mut [u8],
    ) -> Result<(u64, Slip), Denied>
        requires seat { AreSeated B.names seat.old }
        ensures absent { B.shards ≤ handle.old.shard → (result ≡ Err (record { refusal = BadHandle; slip = None })) × (seat.new ≡ seat.old) × (out.new ≡ out.old) × (handle.new ≡ handle.old) }
        ensures foreign { handle.old.shard < B.shards → is_of (B.names handle.old.shard).name seat.old handle.old.shard ≡ false → (result ≡ Err (record { refusal = Stranger; slip = None })) × (seat.new ≡ seat.old) × (out.new ≡ out.old) × (handle.new ≡ handle.old) }
        ensures others { OnlyAt handle.old.shard seat.old seat.new }
        ensures seated { AreSeated B.names seat.new }
        ensures same { (handle.new.shard ≡ handle.old.shard) × (handle.new.handle ≡ record handle.old.handle { cursor = handle.new.handle.cursor }) }
        ensures call { handle.old.shard < B.shards → is_of (B.names handle.old.shard).name seat.old handle.old.shard ≡ true → ReadsOn (B.names handle.old.shard) handle.old.handle handle.new.handle out.old out.new result (part seat.old handle.old.shard) (part seat.new handle.old.shard) }
    {
        if handle.shard >= self.shards {
            return Err(without_slip(Refusal::BadHandle));
        }
        let Some(own) = seat.seats.get_mut(handle.shard as usize) else {
            return Err(without_slip(Refusal::Stranger));
        };
        let mut call = Read {
            handle: &mut handle.handle,
            out,
        };
        self.caches.ask(rt, handle.shard, own, &mut call)
    }

    /// Puts the cursor, and answers where it is now. Refused by `TooLarge` below 0 and past the greatest size of a file. Only a place
    /// that is counted from the end of the file makes an event, which asks for the file's size.
    #[tactic(auto, using(crate::proofs::ShardSeated::seated_on))]
    pub fn seek<R: Wait>(
        &self,
        rt: &R,
        seat: &mut ShardSeat,
        handle: &mut ShardHandle,
        place: Seek,
    ) -> Result<(u64, Option<Slip>), Denied>
        requires seat { AreSeated B.names seat.old }
        ensures absent { B.shards ≤ handle.old.shard → (result ≡ Err (record { refusal = BadHandle; slip = None })) × (seat.new ≡ seat.old) × (handle.new ≡ handle.old) }
        ensures foreign { handle.old.shard < B.shards → is_of (B.names handle.old.shard).name seat.old handle.old.shard ≡ false → (result ≡ Err (record { refusal = Stranger; slip = None })) × (seat.new ≡ seat.old) × (handle.new ≡ handle.old) }
        ensures others { OnlyAt handle.old.shard seat.old seat.new }
        ensures seated { AreSeated B.names seat.new }
        ensures same { (handle.new.shard ≡ handle.old.shard) × (handle.new.handle ≡ record handle.old.handle { cursor = handle.new.handle.cursor }) }
        ensures call { handle.old.shard < B.shards → is_of (B.names handle.old.shard).name seat.old handle.old.shard ≡ true → Moves (B.names handle.old.shard) place handle.old.handle handle.new.handle result (part seat.old handle.old.shard) (part seat.new handle.old.shard) }
    {
        if handle.shard >= self.shards {
            return Err(without_slip(Refusal::BadHandle));
        }
        let Some(own) = seat.seats.get_mut(handle.shard as usize) else {
            return Err(without_slip(Refusal::Stranger));
        };
        let mut call = SeekTo {
            handle: &mut handle.handle,
            place,
        };
        self.caches.ask(rt, handle.shard, own, &mut call)
    }

    /// Writes the bytes into the file from `offset` on, all of them, also by an appending handle. A gap before them reads as zeros. A
    /// write touches 16 pages at most.
    #[tactic(auto, using(crate::proofs::ShardSeated::seated_on))]
    pub fn pwrite<R: Wait>(
        &self,
        rt: &R,
        seat: &mut ShardSeat,
        handle: &ShardHandle,
        offset: u64,
        bytes: &[u8],
    ) -> Result<(Wrote, Slip), Denied>
        requires seat { AreSeated B.names seat.old }
        ensures absent { B.shards ≤ handle.now.shard → (result ≡ Err (record { refusal = BadHandle; slip = None })) × (seat.new ≡ seat.old) }
        ensures foreign { handle.now.shard < B.shards → is_of (B.names handle.now.shard).name seat.old handle.now.shard ≡ false → (result ≡ Err (record { refusal = Stranger; slip = None })) × (seat.new ≡ seat.old) }
        ensures others { OnlyAt handle.now.shard seat.old seat.new }
        ensures seated { AreSeated B.names seat.new }
        ensures call { handle.now.shard < B.shards → is_of (B.names handle.now.shard).name seat.old handle.now.shard ≡ true → Writes (B.names handle.now.shard) handle.now.handle offset bytes.now result (part seat.old handle.now.shard) (part seat.new handle.now.shard) }
    {
        if handle.shard >= self.shards {
            return Err(without_slip(Refusal::BadHandle));
        }
        let Some(own) = seat.seats.get_mut(handle.shard as usize) else {
            return Err(without_slip(Refusal::Stranger));
        };
        let mut call = Pwrite {
            handle: &handle.handle,
            offset,
            bytes,
        };
        self.caches.ask(rt, handle.shard, own, &mut call)
    }

    /// Writes at the cursor, or with an appending handle at the end of the file, all of the bytes, and puts the cursor behind them.
    #[tactic(auto, using(crate::proofs::ShardSeated::seated_on))]
    pub fn write<R: Wait>(
        &self,
        rt: &R,
        seat: &mut ShardSeat,
        handle: &mut ShardHandle,
        bytes: &[u8],
    ) -> Result<(Wrote, Slip), Denied>
        requires seat { AreSeated B.names seat.old }
        ensures absent { B.shards ≤ handle.old.shard → (result ≡ Err (record { refusal = BadHandle; slip = None })) × (seat.new ≡ seat.old) × (handle.new ≡ handle.old) }
        ensures foreign { handle.old.shard < B.shards → is_of (B.names handle.old.shard).name seat.old handle.old.shard ≡ false → (result ≡ Err (record { refusal = Stranger; slip = None })) × (seat.new ≡ seat.old) × (handle.new ≡ handle.old) }
        ensures others { OnlyAt handle.old.shard seat.old seat.new }
        ensures seated { AreSeated B.names seat.new }
        ensures same { (handle.new.shard ≡ handle.old.shard) × (handle.new.handle ≡ record handle.old.handle { cursor = handle.new.handle.cursor }) }
        ensures call { handle.old.shard < B.shards → is_of (B.names handle.old.shard).name seat.old handle.old.shard ≡ true → WritesOn (B.names handle.old.shard) handle.old.handle handle.new.handle bytes.now result (part seat.old handle.old.shard) (part seat.new handle.old.shard) }
    {
        if handle.shard >= self.shards {
            return Err(without_slip(Refusal::BadHandle));
        }
        let Some(own) = seat.seats.get_mut(handle.shard as usize) else {
            return Err(without_slip(Refusal::Stranger));
        };
        let mut call = Write {
            handle: &mut handle.handle,
            bytes,
        };
        self.caches.ask(rt, handle.shard, own, &mut call)
    }

    /// Makes the file as long as this, in bytes. A longer one gains zeros. The cursor stays.
    #[tactic(auto, using(crate::proofs::ShardSeated::seated_on))]
    pub fn truncate<R: Wait>(
        &self,
        rt: &R,
        seat: &mut ShardSeat,
        handle: &ShardHandle,
        size: u64,
    ) -> Result<Slip, Denied>
        requires seat { AreSeated B.names seat.old }
        ensures absent { B.shards ≤ handle.now.shard → (result ≡ Err (record { refusal = BadHandle; slip = None })) × (seat.new ≡ seat.old) }
        ensures foreign { handle.now.shard < B.shards → is_of (B.names handle.now.shard).name seat.old handle.now.shard ≡ false → (result ≡ Err (record { refusal = Stranger; slip = None })) × (seat.new ≡ seat.old) }
        ensures others { OnlyAt handle.now.shard seat.old seat.new }
        ensures seated { AreSeated B.names seat.new }
        ensures call { handle.now.shard < B.shards → is_of (B.names handle.now.shard).name seat.old handle.now.shard ≡ true → Cuts (B.names handle.now.shard) handle.now.handle size result (part seat.old handle.now.shard) (part seat.new handle.now.shard) }
    {
        if handle.shard >= self.shards {
            return Err(without_slip(Refusal::BadHandle));
        }
        let Some(own) = seat.seats.get_mut(handle.shard as usize) else {
            return Err(without_slip(Refusal::Stranger));
        };
        let mut call = Truncate {
            handle: &handle.handle,
            size,
        };
        self.caches.ask(rt, handle.shard, own, &mut call)
    }

    /// The size of the handle's file, in bytes.
    #[tactic(auto, using(crate::proofs::ShardSeated::seated_on))]
    pub fn size<R: Wait>(
        &self,
        rt: &R,
        seat: &mut ShardSeat,
        handle: &ShardHandle,
    ) -> Result<(u64, Slip), Denied>
        requires seat { AreSeated B.names seat.old }
        ensures absent { B.shards ≤ handle.now.shard → (result ≡ Err (record { refusal = BadHandle; slip = None })) × (seat.new ≡ seat.old) }
        ensures foreign { handle.now.shard < B.shards → is_of (B.names handle.now.shard).name seat.old handle.now.shard ≡ false → (result ≡ Err (record { refusal = Stranger; slip = None })) × (seat.new ≡ seat.old) }
        ensures others { OnlyAt handle.now.shard seat.old seat.new }
        ensures seated { AreSeated B.names seat.new }
        ensures call { handle.now.shard < B.shards → is_of (B.names handle.now.shard).name seat.old handle.now.shard ≡ true → Measures (B.names handle.now.shard) handle.now.handle result (part seat.old handle.now.shard) (part seat.new handle.now.shard) }
    {
        if handle.shard >= self.shards {
            return Err(without_slip(Refusal::BadHandle));
        }
        let Some(own) = seat.seats.get_mut(handle.shard as usize) else {
            return Err(without_slip(Refusal::Stranger));
        };
        let mut call = Size {
            handle: &handle.handle,
        };
        self.caches.ask(rt, handle.shard, own, &mut call)
    }
}
