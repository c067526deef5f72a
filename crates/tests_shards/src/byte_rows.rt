//! Rows of calls by one thread: what was written is read back, cut, sought and synced.

use crate::caller::{Caller, Opened, Tested, UNTOUCHED};
use crate::sources::{FIRST, SHARDS};
use cursor::Seek;
use held::denied::Denied;
use pc_types::limits::MAX_FILE_SIZE;
use pc_types::{FileId, PageIndex, Refusal};
use shared::shards::denied::CreateDenied;
use shared::shards::naming::ShardNaming;
use shared::writes::Wrote;
use std::sync::Wait;

/// Two pages and a half.
pub(crate) const TEXT: &[u8] = b"0123456789abcdefghijklmnopqrstuvwxyzABCD";

/// File F stands in shard F mod 3, as the F / 3rd.
pub(crate) fn has_numbers<B: ShardNaming, R: Wait>(
    rt: &R,
    cache: &Tested<'_, B>,
    caller: &mut Caller<B>,
) -> bool {
    let first = caller.creates(rt, cache, 2);
    let second = caller.creates(rt, cache, 2);
    let third = caller.creates(rt, cache, 0);
    let none = cache.create_in(rt, &mut caller.seat, 3);
    let other = cache.open(rt, &mut caller.seat, FileId(1), false);
    let past = cache.open(rt, &mut caller.seat, FileId(u64::MAX), true);
    let is_other_refused = is_no_file(&other) && is_no_file(&past);
    cache.shards() == SHARDS
        && first == Some(FileId(2))
        && second == Some(FileId(5))
        && third == Some(FileId(0))
        && matches!(none, Err(CreateDenied::NoShard))
        && is_other_refused
        && is_known(rt, cache, caller, FileId(5))
}

/// Whether it is refused since no file has the number.
fn is_no_file<T>(answer: &Result<T, Denied>) -> bool {
    matches!(answer, Err(denied) if denied.refusal == Refusal::NoSuchFile)
}

/// Whether a handle of file 5 tells what it is of: file 5, of the last shard.
fn is_known<B: ShardNaming, R: Wait>(
    rt: &R,
    cache: &Tested<'_, B>,
    caller: &mut Caller<B>,
    file: FileId,
) -> bool {
    let Some(opened) = caller.opens(rt, cache, file) else {
        return false;
    };
    let handle = &opened.handle;
    cache.file_of(handle) == file
        && handle.shard() == 2
        && handle.cache() == FIRST + 2
        && cache.name_of(2) == FIRST + 2
        && handle.cursor() == 0
}

/// What is written in each shard is read back, cut, sought and synced.
pub(crate) fn goes_well_in_each<B: ShardNaming, R: Wait>(
    rt: &R,
    cache: &Tested<'_, B>,
    caller: &mut Caller<B>,
) -> bool {
    goes_well(rt, cache, caller, 0)
        && goes_well(rt, cache, caller, 1)
        && goes_well(rt, cache, caller, 2)
}

fn goes_well<B: ShardNaming, R: Wait>(
    rt: &R,
    cache: &Tested<'_, B>,
    caller: &mut Caller<B>,
    shard: u64,
) -> bool {
    let Some(mut file) = caller.makes(rt, cache, shard) else {
        return false;
    };
    let is_read = reads_back(rt, cache, caller, &file);
    let is_cut = cuts(rt, cache, caller, &file);
    let has_moved = moves(rt, cache, caller, &mut file);
    let is_changed = writes_on(rt, cache, caller, &mut file);
    let is_longer = appends(rt, cache, caller, &file);
    let is_synced = syncs_parts(rt, cache, caller, &mut file);
    let is_closed = cache
        .close_handle(rt, &mut caller.seat, file.handle)
        .is_ok();
    is_read && is_cut && has_moved && is_changed && is_longer && is_synced && is_closed
}

/// Writes the text, and reads it from several places on.
fn reads_back<B: ShardNaming, R: Wait>(
    rt: &R,
    cache: &Tested<'_, B>,
    caller: &mut Caller<B>,
    file: &Opened<B>,
) -> bool {
    caller.writes(rt, cache, file, 0, TEXT).is_some()
        && caller.measures(rt, cache, file) == Some(40)
        && caller.reads(rt, cache, file, 0, TEXT).is_some()
        && caller.reads(rt, cache, file, 30, b"uvwxyzABCD").is_some()
        && caller.reads(rt, cache, file, 40, b"").is_some()
        && caller.reads(rt, cache, file, 100, b"").is_some()
}

/// Leaves 20 bytes of the text, and four zeros behind them.
fn cuts<B: ShardNaming, R: Wait>(
    rt: &R,
    cache: &Tested<'_, B>,
    caller: &mut Caller<B>,
    file: &Opened<B>,
) -> bool {
    let is_short = cache
        .truncate(rt, &mut caller.seat, &file.handle, 20)
        .is_ok();
    let is_cut = caller.measures(rt, cache, file) == Some(20)
        && caller.reads(rt, cache, file, 16, b"ghij").is_some();
    let is_long = cache
        .truncate(rt, &mut caller.seat, &file.handle, 24)
        .is_ok();
    is_short
        && is_cut
        && is_long
        && caller.measures(rt, cache, file) == Some(24)
        && caller.reads(rt, cache, file, 16, b"ghij\0\0\0\0").is_some()
}

/// Reads four bytes at the cursor, and whether they are these.
fn reads_on<B: ShardNaming, R: Wait>(
    rt: &R,
    cache: &Tested<'_, B>,
    caller: &mut Caller<B>,
    file: &mut Opened<B>,
    wanted: [u8; 4],
) -> bool {
    let mut out = [UNTOUCHED; 4];
    let read = cache.read(rt, &mut caller.seat, &mut file.handle, &mut out);
    matches!(read, Ok((4, _))) && out == wanted
}

/// Where the cursor is put, and whether the file was asked for its size.
fn seeks<B: ShardNaming, R: Wait>(
    rt: &R,
    cache: &Tested<'_, B>,
    caller: &mut Caller<B>,
    file: &mut Opened<B>,
    place: Seek,
) -> Option<(u64, bool)> {
    match cache.seek(rt, &mut caller.seat, &mut file.handle, place) {
        Ok((at, slip)) => Some((at, slip.is_some())),
        Err(_) => None,
    }
}

/// Reads the 24 bytes here and there, and leaves the cursor two bytes before their end.
fn moves<B: ShardNaming, R: Wait>(
    rt: &R,
    cache: &Tested<'_, B>,
    caller: &mut Caller<B>,
    file: &mut Opened<B>,
) -> bool {
    let first = reads_on(rt, cache, caller, file, *b"0123");
    let is_behind = file.handle.cursor() == 4;
    let set = seeks(rt, cache, caller, file, Seek::Set(16));
    let second = reads_on(rt, cache, caller, file, *b"ghij");
    let back = seeks(rt, cache, caller, file, Seek::Cur(-2));
    let before = seeks(rt, cache, caller, file, Seek::Cur(-19));
    let past = seeks(rt, cache, caller, file, Seek::Set(MAX_FILE_SIZE + 1));
    let is_left = file.handle.cursor() == 18;
    let end = seeks(rt, cache, caller, file, Seek::End(-2));
    first
        && is_behind
        && set == Some((16, false))
        && second
        && back == Some((18, false))
        && before.is_none()
        && past.is_none()
        && is_left
        && end == Some((22, true))
}

/// Writes three bytes at the cursor, of which the last makes the file longer.
fn writes_on<B: ShardNaming, R: Wait>(
    rt: &R,
    cache: &Tested<'_, B>,
    caller: &mut Caller<B>,
    file: &mut Opened<B>,
) -> bool {
    let wrote = cache.write(rt, &mut caller.seat, &mut file.handle, b"xyz");
    matches!(wrote, Ok((Wrote { count: 3, end: 25 }, _)))
        && file.handle.cursor() == 25
        && caller.measures(rt, cache, file) == Some(25)
        && caller.reads(rt, cache, file, 20, b"\0\0xyz").is_some()
}

/// Writes a byte by an appending handle, whose cursor is at the beginning.
fn appends<B: ShardNaming, R: Wait>(
    rt: &R,
    cache: &Tested<'_, B>,
    caller: &mut Caller<B>,
    file: &Opened<B>,
) -> bool {
    let number = cache.file_of(&file.handle);
    let Ok((mut other, _)) = cache.open(rt, &mut caller.seat, number, true) else {
        return false;
    };
    let wrote = cache.write(rt, &mut caller.seat, &mut other, b"!");
    matches!(wrote, Ok((Wrote { count: 1, end: 26 }, _)))
        && other.cursor() == 26
        && caller.reads(rt, cache, file, 24, b"z!").is_some()
}

/// Syncs the first page, and then all of the file.
fn syncs_parts<B: ShardNaming, R: Wait>(
    rt: &R,
    cache: &Tested<'_, B>,
    caller: &mut Caller<B>,
    file: &mut Opened<B>,
) -> bool {
    let (first, next) = (PageIndex(0), PageIndex(1));
    let seat = &mut caller.seat;
    let wrong = cache.fsync_range(rt, seat, &mut file.handle, next, first);
    let is_wrong = matches!(wrong, Err(denied) if denied.refusal == Refusal::BadRange);
    let part = cache.fsync_range(rt, seat, &mut file.handle, first, first);
    let whole = cache.fsync(rt, seat, &mut file.handle);
    let name = cache.name_of(file.handle.shard());
    let is_own = matches!(&whole, Ok(durable) if durable.slip().name == name);
    is_wrong && part.is_ok() && is_own && caller.reads(rt, cache, file, 20, b"\0\0xyz!").is_some()
}

/// A caller writes in shard 1, and another, who saw the slip of that, reads there after it.
pub(crate) fn is_seen<B: ShardNaming, R: Wait>(
    rt: &R,
    cache: &Tested<'_, B>,
    first: &mut Caller<B>,
    second: &mut Caller<B>,
) -> bool {
    let Some(file) = first.makes(rt, cache, 1) else {
        return false;
    };
    let number = cache.file_of(&file.handle);
    let Some(other) = second.opens(rt, cache, number) else {
        return false;
    };
    let Some(wrote) = first.writes(rt, cache, &file, 0, b"a") else {
        return false;
    };
    let is_shown = second.seat.see(&wrote) == Ok(());
    let Some(read) = second.reads(rt, cache, &other, 0, b"a") else {
        return false;
    };
    let mut later = read;
    later.place = later.place.saturating_add(1);
    let is_later_refused = second.seat.see(&later) == Err(Refusal::Stranger);
    let is_of_shard = wrote.name == cache.name_of(1) && read.name == wrote.name;
    is_shown && is_later_refused && is_of_shard && wrote.place < read.place
}
