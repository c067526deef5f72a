//! A caller, and the calls that it makes.

ghost use Rattle.std.specs.Prelude.{◌≡◌, All};
ghost use Rattle.shared.specs.ShardSeats.{AreSeated};

use crate::gated_trail::GatedTrail;
use blockdev::ScriptDevice;
use held::log::Slip;
use pc_types::FileId;
use shared::shards::cache::ShardedCache;
use shared::shards::handle::ShardHandle;
use shared::shards::naming::ShardNaming;
use shared::shards::seat::ShardSeat;
use std::marker::PhantomData;
use std::sync::Wait;

/// Pages have so many bytes.
pub(crate) const PAGE: usize = 16;

/// More bytes than a row reads by one call.
const MOST: usize = 48;

/// What a buffer has before a read.
pub(crate) const UNTOUCHED: u8 = 9;

pub(crate) type Tested<'a, B> = ShardedCache<B, ScriptDevice, GatedTrail<'a>>;

/// A caller of the cache that B names.
#[derive(Drop)]
pub(crate) struct Caller<B: ShardNaming> {
    pub(crate) seat: ShardSeat,
    of: PhantomData<B>,
    pub ghost seated: { AreSeated B.names seat },
}

/// An open file of the cache that B names.
#[derive(Drop)]
pub(crate) struct Opened<B: ShardNaming> {
    pub(crate) handle: ShardHandle,
    of: PhantomData<B>,
    pub ghost came: { handle.handle.cache ≡ (B.names handle.shard).name → handle.handle.pass.board ≡ (B.names handle.shard).board },
}

impl<B: ShardNaming> Opened<B> {
    /// The file of this handle.
    pub(crate) fn of(handle: ShardHandle) -> Opened<B>
        requires { handle.handle.cache ≡ (B.names handle.shard).name → handle.handle.pass.board ≡ (B.names handle.shard).board }
        ensures { result.handle ≡ handle }
    {
        Opened {
            handle,
            of: PhantomData,
        }
    }
}

impl<B: ShardNaming> Caller<B> {
    /// The caller of this seat.
    pub(crate) fn of(seat: ShardSeat) -> Caller<B>
        requires { AreSeated B.names seat }
        ensures { result.seat ≡ seat }
    {
        Caller {
            seat,
            of: PhantomData,
        }
    }

    /// The caller of the last of these seats.
    pub(crate) fn last_of(seats: &mut Vec<ShardSeat>) -> Option<Caller<B>>
        requires { All (AreSeated B.names) seats.old.items }
        ensures { All (AreSeated B.names) seats.new.items }
    {
        let seat = seats.pop()?;
        Some(Caller::of(seat))
    }

    /// Puts the seat to these. Answers whether there was room.
    pub(crate) fn comes_back(self, seats: &mut Vec<ShardSeat>) -> bool
        requires { All (AreSeated B.names) seats.old.items }
        ensures { All (AreSeated B.names) seats.new.items }
    {
        seats.push(self.seat).is_ok()
    }

    /// Makes a file in this shard, and answers its number.
    pub(crate) fn creates<R: Wait>(
        &mut self,
        rt: &R,
        cache: &Tested<'_, B>,
        shard: u64,
    ) -> Option<FileId> {
        match cache.create_in(rt, &mut self.seat, shard) {
            Ok((file, _)) => Some(file),
            Err(_) => None,
        }
    }

    pub(crate) fn opens<R: Wait>(
        &mut self,
        rt: &R,
        cache: &Tested<'_, B>,
        file: FileId,
    ) -> Option<Opened<B>> {
        match cache.open(rt, &mut self.seat, file, false) {
            Ok((handle, _)) => Some(Opened::of(handle)),
            Err(_) => None,
        }
    }

    /// Makes a file in this shard, and opens it.
    pub(crate) fn makes<R: Wait>(
        &mut self,
        rt: &R,
        cache: &Tested<'_, B>,
        shard: u64,
    ) -> Option<Opened<B>> {
        let file = self.creates(rt, cache, shard)?;
        self.opens(rt, cache, file)
    }

    /// Writes all of the bytes from `offset` on, and answers the slip of that.
    pub(crate) fn writes<R: Wait>(
        &mut self,
        rt: &R,
        cache: &Tested<'_, B>,
        file: &Opened<B>,
        offset: u64,
        bytes: &[u8],
    ) -> Option<Slip> {
        let (wrote, slip) = cache
            .pwrite(rt, &mut self.seat, &file.handle, offset, bytes)
            .ok()?;
        let count = bytes.len() as u64;
        (wrote.count == count && wrote.end == offset.wrapping_add(count)).then_some(slip)
    }

    /// Reads from `offset` on, and answers the slip of that where the file has these bytes there, and no more.
    pub(crate) fn reads<R: Wait>(
        &mut self,
        rt: &R,
        cache: &Tested<'_, B>,
        file: &Opened<B>,
        offset: u64,
        wanted: &[u8],
    ) -> Option<Slip> {
        let mut out = [UNTOUCHED; MOST];
        let (count, slip) = cache
            .pread(rt, &mut self.seat, &file.handle, offset, &mut out)
            .ok()?;
        is_filled(&out, count, wanted).then_some(slip)
    }

    /// The size that the file is told to have.
    pub(crate) fn measures<R: Wait>(
        &mut self,
        rt: &R,
        cache: &Tested<'_, B>,
        file: &Opened<B>,
    ) -> Option<u64> {
        let (size, _) = cache.size(rt, &mut self.seat, &file.handle).ok()?;
        Some(size)
    }

    /// Whether an fsync of the file goes well.
    pub(crate) fn syncs<R: Wait>(
        &mut self,
        rt: &R,
        cache: &Tested<'_, B>,
        file: &mut Opened<B>,
    ) -> bool {
        cache.fsync(rt, &mut self.seat, &mut file.handle).is_ok()
    }

    /// Writes the page's number all over it.
    pub(crate) fn writes_page<R: Wait>(
        &mut self,
        rt: &R,
        cache: &Tested<'_, B>,
        file: &Opened<B>,
        page: u8,
    ) -> bool {
        let offset = u64::from(page) * PAGE as u64;
        self.writes(rt, cache, file, offset, &[page; PAGE])
            .is_some()
    }

    /// Whether the page's number stands all over it.
    pub(crate) fn reads_page<R: Wait>(
        &mut self,
        rt: &R,
        cache: &Tested<'_, B>,
        file: &Opened<B>,
        page: u8,
    ) -> bool {
        let mut out = [UNTOUCHED; PAGE];
        let offset = u64::from(page) * PAGE as u64;
        let read = cache.pread(rt, &mut self.seat, &file.handle, offset, &mut out);
        matches!(read, Ok((16, _))) && out == [page; PAGE]
    }
}

/// Whether so many bytes were read, which are these, and no byte past them was touched.
pub(crate) fn is_filled(out: &[u8], count: u64, wanted: &[u8]) -> bool {
    count == wanted.len() as u64
        && out.starts_with(wanted)
        && out.iter().skip(wanted.len()).all(|byte| *byte == UNTOUCHED)
}
