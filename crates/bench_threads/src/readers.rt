//! Threads that read one file of a shared cache, each by a seat and a handle of its own.

ghost use Rattle.std.specs.Prelude.{◌≡◌, ◌<◌, All, length};

use crate::cached::{PAGE, PAGES, Plain, Reads, Size};
use bench_timing::Fault;
use blockdev::MemDevice;
use held::denied::Denied;
use held::log::Seat;
use held::naming::Naming;
use pc_types::FileId;
use shared::cache::SharedCache;
use shared::handle::Handle;
use std::marker::PhantomData;
use std::sync::Wait;
use std::thread;
use std::thread::Threads;
use trail::NoTrail;

/// A cache over memory that keeps no history.
pub type Shared<B> = SharedCache<B, MemDevice, NoTrail>;

/// A seat and a handle of the cache that B names.
#[derive(Drop)]
pub struct Reader<B: Naming> {
    seat: Seat,
    handle: Handle,
    of: PhantomData<B>,
    ghost seated: { seat.table ≡ B.table },
    ghost came: { handle.pass.board ≡ B.board },
}

impl<B: Naming> Reader<B> {
    /// Opens the file by the seat.
    fn open<R: Wait>(
        rt: &R,
        cache: &Shared<B>,
        mut seat: Seat,
        file: FileId,
    ) -> Result<Reader<B>, Fault>
        requires { seat.table ≡ B.table }
    {
        match cache.open(rt, &mut seat, file, false) {
            Ok((handle, _)) => Ok(Reader {
                seat,
                handle,
                of: PhantomData,
            }),
            Err(denied) => {
                // by a call, since the check is slow where a seat goes out of scope
                drop(seat);
                Err(Fault::from(denied.refusal))
            }
        }
    }

    /// Opens the file by the last of the seats.
    fn open_next<R: Wait>(
        rt: &R,
        cache: &Shared<B>,
        seats: &mut Vec<Seat>,
        file: FileId,
    ) -> Result<Reader<B>, Fault>
        requires { All (λ s. s.table ≡ B.table) seats.old.items }
        ensures { All (λ s. s.table ≡ B.table) seats.new.items }
    {
        match seats.pop() {
            Some(seat) => Reader::open(rt, cache, seat, file),
            None => Err(Fault::Odd),
        }
    }

    /// Writes the plain bytes, page by page, and syncs them.
    fn write_all<R: Wait>(
        &mut self,
        rt: &R,
        cache: &Shared<B>,
        plain: &Plain,
    ) -> Result<(), Fault> {
        for page in 0..PAGES {
            let bytes = plain.at(page * PAGE, PAGE as usize);
            heard(cache.pwrite(rt, &mut self.seat, &self.handle, page * PAGE, bytes))?;
        }
        heard(cache.fsync(rt, &mut self.seat, &mut self.handle))?;
        Ok(())
    }

    /// Reads at each of the offsets, and gives the sum of the first bytes and of the counts.
    fn read_each<R: Wait>(
        &mut self,
        rt: &R,
        cache: &Shared<B>,
        reads: Reads<'_>,
    ) -> Result<u64, Fault> {
        match reads.size {
            Size::Small => self.read_each_to(rt, cache, reads.offsets, &mut [0; 64]),
            Size::Page => self.read_each_to(rt, cache, reads.offsets, &mut [0; PAGE as usize]),
        }
    }

    #[inline(never)]
    fn read_each_to<R: Wait>(
        &mut self,
        rt: &R,
        cache: &Shared<B>,
        offsets: &[u64],
        out: &mut [u8],
    ) -> Result<u64, Fault>
        requires { 0 < length out.old }
    {
        let mut sum = 0u64;
        for offset in offsets {
            let (count, _) = heard(cache.pread(rt, &mut self.seat, &self.handle, *offset, out))?;
            sum = sum.wrapping_add(count.wrapping_add(u64::from(out[0])));
        }
        Ok(sum)
    }

    /// Whether each of the reads answers the plain bytes that stand there.
    fn finds<R: Wait>(
        &mut self,
        rt: &R,
        cache: &Shared<B>,
        plain: &Plain,
        reads: Reads<'_>,
    ) -> bool {
        let mut page = [0; PAGE as usize];
        let out = &mut page[..reads.size.bytes()];
        for offset in reads.offsets {
            let read = cache.pread(rt, &mut self.seat, &self.handle, *offset, out);
            if read.is_err() || &*out != plain.at(*offset, out.len()) {
                return false;
            }
        }
        true
    }
}

/// What a call answered, or why the bench ends.
#[inline(always)]
fn heard<T>(answer: Result<T, Denied>) -> Result<T, Fault> {
    match answer {
        Ok(answer) => Ok(answer),
        Err(denied) => Err(Fault::from(denied.refusal)),
    }
}

/// Two readers of one file.
#[derive(Drop)]
struct Pair<B: Naming> {
    one: Reader<B>,
    other: Reader<B>,
}

impl<B: Naming> Pair<B> {
    /// The reader and another, at the last of the seats.
    fn of<R: Wait>(
        rt: &R,
        cache: &Shared<B>,
        one: Reader<B>,
        seats: &mut Vec<Seat>,
        file: FileId,
    ) -> Result<Pair<B>, Fault>
        requires { All (λ s. s.table ≡ B.table) seats.old.items }
        ensures { All (λ s. s.table ≡ B.table) seats.new.items }
    {
        match Reader::open_next(rt, cache, seats, file) {
            Ok(other) => Ok(Pair { one, other }),
            Err(fault) => {
                drop(one);
                Err(fault)
            }
        }
    }

    /// Two readers at the last two of the seats.
    fn open<R: Wait>(
        rt: &R,
        cache: &Shared<B>,
        seats: &mut Vec<Seat>,
        file: FileId,
    ) -> Result<Pair<B>, Fault>
        requires { All (λ s. s.table ≡ B.table) seats.old.items }
        ensures { All (λ s. s.table ≡ B.table) seats.new.items }
    {
        let one = Reader::open_next(rt, cache, seats, file)?;
        Pair::of(rt, cache, one, seats, file)
    }
}

impl<B: Naming + Send + Sync> Pair<B> {
    /// Each reads half of the reads, in a thread of its own. Gives the sum of what `read_each` gives.
    fn read_together<R: Threads + Wait + Sync>(
        &mut self,
        rt: &R,
        cache: &Shared<B>,
        reads: Reads<'_>,
    ) -> Result<u64, Fault> {
        let Pair { one, other } = self;
        let (front, back) = reads.halves();
        let (mine, theirs) = thread::join(
            rt,
            || one.read_each(rt, cache, front),
            || other.read_each(rt, cache, back),
        );
        Ok(mine?.wrapping_add(theirs?))
    }
}

/// As many readers as threads.
#[derive(Drop)]
pub struct Readers<B: Naming> {
    front: Pair<B>,
    back: Pair<B>,
}

impl<B: Naming> Readers<B> {
    /// Makes a file, and opens it by each of the last four seats.
    pub fn of<R: Wait>(
        rt: &R,
        cache: &Shared<B>,
        seats: &mut Vec<Seat>,
    ) -> Result<Readers<B>, Fault>
        requires { All (λ s. s.table ≡ B.table) seats.old.items }
    {
        let file = make_file(rt, cache, seats)?;
        let front = Pair::open(rt, cache, seats, file)?;
        match Pair::open(rt, cache, seats, file) {
            Ok(back) => Ok(Readers { front, back }),
            Err(fault) => {
                drop(front);
                Err(fault)
            }
        }
    }

    /// The first reader writes the plain bytes.
    pub fn write_all<R: Wait>(
        &mut self,
        rt: &R,
        cache: &Shared<B>,
        plain: &Plain,
    ) -> Result<(), Fault> {
        self.front.one.write_all(rt, cache, plain)
    }

    /// The first reader reads alone.
    pub fn read_alone<R: Wait>(
        &mut self,
        rt: &R,
        cache: &Shared<B>,
        reads: Reads<'_>,
    ) -> Result<u64, Fault> {
        self.front.one.read_each(rt, cache, reads)
    }

    /// Whether each of the reads answers the first reader the plain bytes that stand there.
    pub fn finds<R: Wait>(
        &mut self,
        rt: &R,
        cache: &Shared<B>,
        plain: &Plain,
        reads: Reads<'_>,
    ) -> bool {
        self.front.one.finds(rt, cache, plain, reads)
    }
}

/// Makes a file, by one seat more than the readers have.
fn make_file<R: Wait, B: Naming>(
    rt: &R,
    cache: &Shared<B>,
    seats: &mut Vec<Seat>,
) -> Result<FileId, Fault>
    requires { All (λ s. s.table ≡ B.table) seats.old.items }
    ensures { All (λ s. s.table ≡ B.table) seats.new.items }
{
    let Some(mut seat) = seats.pop() else {
        return Err(Fault::Odd);
    };
    let made = heard(cache.create(rt, &mut seat));
    drop(seat);
    let (file, _) = made?;
    Ok(file)
}

impl<B: Naming + Send + Sync> Readers<B> {
    /// Each reads a quarter of the reads, in a thread of its own. Gives the sum of what `read_each` gives.
    pub fn read_together<R: Threads + Wait + Sync>(
        &mut self,
        rt: &R,
        cache: &Shared<B>,
        reads: Reads<'_>,
    ) -> Result<u64, Fault> {
        let Readers { front, back } = self;
        let (first, last) = reads.halves();
        let (one, other) = thread::join(
            rt,
            || front.read_together(rt, cache, first),
            || back.read_together(rt, cache, last),
        );
        Ok(one?.wrapping_add(other?))
    }
}
