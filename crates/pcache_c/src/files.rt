//! The calls on files and handles.

ghost use Rattle.std.specs.Prelude.{◌≡◌, ◌-◌, ℕ, pos, None, Some, Err, IfErr, IsOk, length, take, min};
ghost use Rattle.std.specs.Option.{IsSomeAnd};
ghost use Rattle.pc_types.specs.Files as plain;
ghost use Rattle.machine.specs.State.{file_at};
ghost use Rattle.filesvc.specs.Seen.{HandleSeen};
ghost use Rattle.filesvc.specs.Service.{AreOnDevice, IsOnDevice, Tells, files};
ghost use Rattle.desk.specs.Seen.{DeskSeen, OthersKept, Stays, file_of, handle_at, with_file};
ghost use Rattle.pcache_c.specs.Answers.{bad_handle};
ghost use Rattle.pcache_c.specs.Caches.{IsCreated, opened_at};

use crate::answers::{WAITS, no_cache};
use crate::held::Held;
use desk::HandleNo;
use pc_types::{FileId, PageIndex, Refusal};
use std::alloc::Global;

/// Makes a file without bytes, and answers its number.
#[unsafe(no_mangle)]
pub extern "C" fn pcache_create(alloc: Global, held: &mut Held) -> i64
    ensures none { held.old.value ≡ None → (result ≡ bad_handle) × (held.new.value ≡ None) }
    ensures created { (old : DeskSeen) (n : ℕ) → held.old.value ≡ Some old → result ≡ pos n → IsSomeAnd held.new.value (λ new. IsCreated old new n) }
    ensures kept { (old : DeskSeen) → held.old.value ≡ Some old → IsSomeAnd held.new.value (λ new. new.handles ≡ old.handles) }
{
    let Some(mut cache) = held.take_out(alloc) else {
        return no_cache();
    };
    let done = match cache.desk.create() {
        Ok(file) => Ok(file.0),
        Err(refusal) => Err(refusal),
    };
    let result = cache.answer(done);
    held.put_in(alloc, cache);
    result
}

/// Opens a file, and answers the handle's number.
#[unsafe(no_mangle)]
pub extern "C" fn pcache_open(alloc: Global, held: &mut Held, file: u64) -> i64
    ensures none { held.old.value ≡ None → (result ≡ bad_handle) × (held.new.value ≡ None) }
    ensures opened { (old : DeskSeen) (n : ℕ) → held.old.value ≡ Some old → result ≡ pos n → (handle_at old n ≡ None) × IsSomeAnd held.new.value (λ new. (h : HandleSeen) × (handle_at new n ≡ Some h) × (h.file ≡ file)) }
    ensures others { (old : DeskSeen) (n : ℕ) → held.old.value ≡ Some old → result ≡ pos n → IsSomeAnd held.new.value (λ new. OthersKept old new n) }
    ensures files { (old : DeskSeen) → held.old.value ≡ Some old → Tells old.service → IsSomeAnd held.new.value (λ new. (files new.service).files ≡ (files old.service).files) }
{
    let Some(mut cache) = held.take_out(alloc) else {
        return no_cache();
    };
    let done = match cache.desk.open(FileId(file)) {
        Ok(number) => Ok(number.0),
        Err(refusal) => Err(refusal),
    };
    let result = cache.answer(done);
    held.put_in(alloc, cache);
    result
}

/// Closes a handle.
#[unsafe(no_mangle)]
pub extern "C" fn pcache_close(alloc: Global, held: &mut Held, handle: u64) -> i64
    ensures unknown { opened_at held.old.value handle ≡ None → (result ≡ bad_handle) × (held.new.value ≡ held.old.value) }
    ensures gone { opened_at held.new.value handle ≡ None }
    ensures others { (old : DeskSeen) → held.old.value ≡ Some old → IsSomeAnd held.new.value (λ new. OthersKept old new handle) }
    ensures files { (old : DeskSeen) → held.old.value ≡ Some old → Tells old.service → IsSomeAnd held.new.value (λ new. (files new.service).files ≡ (files old.service).files) }
{
    let Some(mut cache) = held.take_out(alloc) else {
        return no_cache();
    };
    let done = cache.desk.close(HandleNo(handle));
    let result = cache.answer(nothing(done));
    held.put_in(alloc, cache);
    result
}

/// Reads the bytes from `offset` on into the front of `out`, and answers how many.
#[unsafe(no_mangle)]
pub extern "C" fn pcache_pread(
    alloc: Global,
    held: &mut Held,
    handle: u64,
    offset: u64,
    out: &mut [u8],
) -> i64
    ensures unknown { opened_at held.old.value handle ≡ None → (result ≡ bad_handle) × (held.new.value ≡ held.old.value) × (out.new ≡ out.old) }
    ensures bytes { (old : DeskSeen) (h : HandleSeen) (n : ℕ) → held.old.value ≡ Some old → handle_at old handle ≡ Some h → Tells old.service → result ≡ pos n → take n out.new ≡ plain.pread (file_of old h.file) offset (length out.old) }
    ensures all { (old : DeskSeen) (h : HandleSeen) (n : ℕ) → held.old.value ≡ Some old → handle_at old handle ≡ Some h → result ≡ pos n → n ≡ min (length out.old) ((file_at old.service.world.core h.file).size - offset) }
    ensures kept { (old : DeskSeen) → held.old.value ≡ Some old → IsSomeAnd held.new.value (λ new. (new.handles ≡ old.handles) × (Tells old.service → files new.service ≡ files old.service)) }
{
    let Some(mut cache) = held.take_out(alloc) else {
        return no_cache();
    };
    let handle = HandleNo(handle);
    let result = if cache.must_wait(handle) {
        WAITS
    } else {
        let done = cache.desk.pread(handle, offset, out);
        cache.answer(done)
    };
    held.put_in(alloc, cache);
    result
}

/// Writes bytes from `offset` on, and answers how many from their front.
#[unsafe(no_mangle)]
pub extern "C" fn pcache_pwrite(
    alloc: Global,
    held: &mut Held,
    handle: u64,
    offset: u64,
    bytes: &[u8],
) -> i64
    ensures unknown { opened_at held.old.value handle ≡ None → (result ≡ bad_handle) × (held.new.value ≡ held.old.value) }
    ensures file { (old : DeskSeen) (h : HandleSeen) (n : ℕ) → held.old.value ≡ Some old → handle_at old handle ≡ Some h → Tells old.service → result ≡ pos n → IsSomeAnd held.new.value (λ new. files new.service ≡ with_file (files old.service) h.file (plain.pwrite (file_of old h.file) offset (take n bytes.now))) }
    ensures kept { (old : DeskSeen) → held.old.value ≡ Some old → IsSomeAnd held.new.value (λ new. new.handles ≡ old.handles) }
{
    let Some(mut cache) = held.take_out(alloc) else {
        return no_cache();
    };
    let handle = HandleNo(handle);
    let result = if cache.must_wait(handle) {
        WAITS
    } else {
        let done = cache.desk.pwrite(handle, offset, bytes);
        cache.answer(done)
    };
    held.put_in(alloc, cache);
    result
}

/// Makes the file as long as this.
#[unsafe(no_mangle)]
pub extern "C" fn pcache_truncate(alloc: Global, held: &mut Held, handle: u64, size: u64) -> i64
    ensures unknown { opened_at held.old.value handle ≡ None → (result ≡ bad_handle) × (held.new.value ≡ held.old.value) }
    ensures file { (old : DeskSeen) (h : HandleSeen) (n : ℕ) → held.old.value ≡ Some old → handle_at old handle ≡ Some h → Tells old.service → result ≡ pos n → IsSomeAnd held.new.value (λ new. files new.service ≡ with_file (files old.service) h.file (plain.cut (file_of old h.file) size)) }
    ensures kept { (old : DeskSeen) → held.old.value ≡ Some old → IsSomeAnd held.new.value (λ new. new.handles ≡ old.handles) }
{
    let Some(mut cache) = held.take_out(alloc) else {
        return no_cache();
    };
    let handle = HandleNo(handle);
    let result = if cache.must_wait(handle) {
        WAITS
    } else {
        let done = cache.desk.truncate(handle, size);
        cache.answer(nothing(done))
    };
    held.put_in(alloc, cache);
    result
}

/// How long the file is.
#[unsafe(no_mangle)]
pub extern "C" fn pcache_size(alloc: Global, held: &mut Held, handle: u64) -> i64
    ensures unknown { opened_at held.old.value handle ≡ None → (result ≡ bad_handle) × (held.new.value ≡ held.old.value) }
    ensures size { (old : DeskSeen) (h : HandleSeen) (n : ℕ) → held.old.value ≡ Some old → handle_at old handle ≡ Some h → result ≡ pos n → n ≡ (file_at old.service.world.core h.file).size }
    ensures kept { (old : DeskSeen) → held.old.value ≡ Some old → IsSomeAnd held.new.value (λ new. (new.service.world ≡ old.service.world) × Stays old new handle) }
{
    let Some(mut cache) = held.take_out(alloc) else {
        return no_cache();
    };
    let done = cache.desk.size(HandleNo(handle));
    let result = cache.answer(done);
    held.put_in(alloc, cache);
    result
}

/// Writes the file's dirty pages to the device, and has it make them durable.
#[unsafe(no_mangle)]
pub extern "C" fn pcache_fsync(alloc: Global, held: &mut Held, handle: u64) -> i64
    ensures unknown { opened_at held.old.value handle ≡ None → (result ≡ bad_handle) × (held.new.value ≡ held.old.value) }
    ensures synced { (old : DeskSeen) (h : HandleSeen) (n : ℕ) → held.old.value ≡ Some old → handle_at old handle ≡ Some h → Tells old.service → result ≡ pos n → IsSomeAnd held.new.value (λ new. IsOnDevice new.service h.file) }
    ensures durable { (old : DeskSeen) (n : ℕ) → held.old.value ≡ Some old → result ≡ pos n → IsSomeAnd held.new.value (λ new. new.service.world.device.durable ≡ new.service.world.device.contents) }
    ensures kept { (old : DeskSeen) → held.old.value ≡ Some old → IsSomeAnd held.new.value (λ new. Stays old new handle × (Tells old.service → files new.service ≡ files old.service)) }
{
    let Some(mut cache) = held.take_out(alloc) else {
        return no_cache();
    };
    let done = cache.desk.fsync(HandleNo(handle));
    let result = cache.answer(nothing(done));
    held.put_in(alloc, cache);
    result
}

/// The same for the pages from `first` to `last`.
#[unsafe(no_mangle)]
pub extern "C" fn pcache_fsync_range(
    alloc: Global,
    held: &mut Held,
    handle: u64,
    first: u64,
    last: u64,
) -> i64
    ensures unknown { opened_at held.old.value handle ≡ None → (result ≡ bad_handle) × (held.new.value ≡ held.old.value) }
    ensures synced { (old : DeskSeen) (h : HandleSeen) (n : ℕ) → held.old.value ≡ Some old → handle_at old handle ≡ Some h → Tells old.service → result ≡ pos n → IsSomeAnd held.new.value (λ new. AreOnDevice new.service h.file (record { 0 = first }) (record { 0 = last })) }
    ensures durable { (old : DeskSeen) (n : ℕ) → held.old.value ≡ Some old → result ≡ pos n → IsSomeAnd held.new.value (λ new. new.service.world.device.durable ≡ new.service.world.device.contents) }
    ensures kept { (old : DeskSeen) → held.old.value ≡ Some old → IsSomeAnd held.new.value (λ new. Stays old new handle × (Tells old.service → files new.service ≡ files old.service)) }
{
    let Some(mut cache) = held.take_out(alloc) else {
        return no_cache();
    };
    let done = cache
        .desk
        .fsync_range(HandleNo(handle), PageIndex(first), PageIndex(last));
    let result = cache.answer(nothing(done));
    held.put_in(alloc, cache);
    result
}

/// The code of a failed write of the file that the handle was not told of, or 0.
#[unsafe(no_mangle)]
pub extern "C" fn pcache_poll_error(alloc: Global, held: &mut Held, handle: u64) -> i64
    ensures unknown { opened_at held.old.value handle ≡ None → (result ≡ bad_handle) × (held.new.value ≡ held.old.value) }
    ensures kept { (old : DeskSeen) → held.old.value ≡ Some old → IsSomeAnd held.new.value (λ new. (new.service.world ≡ old.service.world) × Stays old new handle) }
{
    let Some(mut cache) = held.take_out(alloc) else {
        return no_cache();
    };
    let done = match cache.desk.poll_error(HandleNo(handle)) {
        Ok(Some(code)) => Ok(u64::from(code.code())),
        Ok(None) => Ok(0),
        Err(refusal) => Err(refusal),
    };
    let result = cache.answer(done);
    held.put_in(alloc, cache);
    result
}

/// 0 where it went well.
pub(crate) fn nothing(done: Result<(), Refusal>) -> Result<u64, Refusal>
    ensures well { IsOk result → IsOk done }
    ensures refused { IfErr result (λ r. done ≡ Err r) }
{
    match done {
        Ok(()) => Ok(0),
        Err(refusal) => Err(refusal),
    }
}
