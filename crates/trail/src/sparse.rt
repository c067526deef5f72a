//! A plain file in memory: its size, and the chunks that were written. A file of 2^40 bytes takes no more than what is
//! in it.

ghost use Rattle.std.specs.Prelude.{◌≡◌, ◌<◌, ◌≤◌, ◌+◌, ◌%◌, ◌^◌, ◌↔◌, ℕ, [], length, IsTrue, OnOk, IsOkUnless, true, nat_le, None, if◌then◌else◌, ◌++◌, take, drop};
ghost use Rattle.std.specs.Ordering.{nat_cmp};
ghost use Rattle.std.specs.BTreeMap.{get};
ghost use Rattle.pc_types.specs.Files.{padded, pread, pwrite, cut};
ghost use Rattle.trail.specs.Sparse.{StandsIn, Stands, byte_at, byte_put, byte_cut};

use pc_types::Refusal;
use std::alloc::Global;
use std::collections::BTreeMap;
use std::marker::Model;

/// The bytes of a chunk.
const CHUNK: u64 = 4096;

// The first bytes of each chunk that was written, by its index. Past them, and in a chunk that is not there, stand
// zeros.
type Chunks = BTreeMap<u64, Vec<u8>>;

/// The bytes of a file.
#[derive(Drop)]
pub struct PlainFile {
    size: u64,
    chunks: Chunks,
}

impl Model for PlainFile {
    ghost use Rattle.std.specs.Prelude.{List, ℕ, ◌≡◌, ◌≤◌};
    ghost use Rattle.trail.specs.Sparse.{byte_at, bytes_from};

    ghost Value = { List ℕ };

    ghost view = { λ f. bytes_from (byte_at f.chunks) 0 f.size };

    // so a file that is cut and grows again has zeros there
    ghost invariant = { λ f. (i : ℕ) → f.size ≤ i → byte_at f.chunks i ≡ 0 };
}

impl PlainFile {
    pub fn new(alloc: Global) -> PlainFile
        ensures { result ≡ [] }
    {
        PlainFile {
            size: 0,
            chunks: BTreeMap::new(alloc),
        }
    }

    pub fn len(&self) -> u64
        ensures { result ≡ length self.now }
    {
        self.size
    }

    /// Whether a read of so many bytes from the offset on gives these.
    pub fn reads(&self, offset: u64, count: u64, bytes: &[u8]) -> bool
        ensures { IsTrue result ↔ (bytes.now ≡ pread self.now offset count) }
    {
        let len = count.min(self.size.saturating_sub(offset));
        bytes.len() as u64 == len && holds(&self.chunks, offset, bytes)
    }

    /// Writes the bytes from the offset on. It is refused by `Memory` alone, and the file is empty then.
    pub fn write(&mut self, alloc: Global, offset: u64, bytes: &[u8]) -> Result<(), Refusal>
        requires { offset + length bytes.now < 2 ^ 64 }
        ensures written { OnOk result (self.new ≡ pwrite self.old offset bytes.now) }
        ensures refused { IsOkUnless result Refusal.Memory }
    {
        if bytes.is_empty() {
            return Ok(());
        }
        if put(&mut self.chunks, alloc, offset, bytes).is_err() {
            // some of the bytes may stand past the end: no reader is to see them
            *self = PlainFile::new(alloc);
            return Err(Refusal::Memory);
        }
        self.size = self.size.max(offset + bytes.len() as u64);
        Ok(())
    }

    /// Cuts the file to a size, or lets it grow to it with zeros.
    pub fn cut(&mut self, size: u64)
        ensures { self.new ≡ cut self.old size }
    {
        if size < self.size {
            forget(&mut self.chunks, size);
        }
        self.size = size;
    }
}

// How many bytes stand from here to the end of the chunk.
fn rest_of_chunk(at: u64) -> usize
    ensures some { 0 < result }
    ensures within { at % 4096 + result ≡ 4096 }
{
    (CHUNK - at % CHUNK) as usize
}

// Whether these bytes stand there.
fn holds(chunks: &Chunks, offset: u64, bytes: &[u8]) -> bool
    requires { offset + length bytes.now < 2 ^ 64 }
    ensures { IsTrue result ↔ Stands chunks.now offset bytes.now }
{
    let mut done = 0;
    while done < bytes.len() {
        let at = offset + done as u64;
        let end = bytes.len().min(done + rest_of_chunk(at));
        if !chunk_holds(chunks, at, &bytes[done..end]) {
            return false;
        }
        done = end;
    }
    true
}

// Whether these bytes, which lie in one chunk, stand there.
fn chunk_holds(chunks: &Chunks, at: u64, bytes: &[u8]) -> bool
    requires { at % 4096 + length bytes.now ≤ 4096 }
    ensures { IsTrue result ↔ Stands chunks.now at bytes.now }
{
    match chunks.get(&(at / CHUNK)) {
        Some(chunk) => has(chunk.as_slice(), (at % CHUNK) as usize, bytes),
        None => are_zeros(bytes),
    }
}

// Whether these bytes stand in a chunk, past whose end there are zeros.
fn has(chunk: &[u8], start: usize, bytes: &[u8]) -> bool
    ensures { IsTrue result ↔ StandsIn chunk.now start bytes.now }
{
    let there = &chunk[start.min(chunk.len())..];
    let len = bytes.len().min(there.len());
    are_same(&bytes[..len], &there[..len]) && are_zeros(&bytes[len..])
}

fn are_same(bytes: &[u8], others: &[u8]) -> bool
    ensures { IsTrue result ↔ (bytes.now ≡ others.now) }
{
    bytes == others
}

fn are_zeros(bytes: &[u8]) -> bool
    ensures { IsTrue result ↔ StandsIn [] 0 bytes.now }
{
    bytes.iter().all(|byte| *byte == 0)
}

// Puts the bytes in place.
fn put(chunks: &mut Chunks, alloc: Global, offset: u64, bytes: &[u8]) -> Result<(), Refusal>
    requires { offset + length bytes.now < 2 ^ 64 }
    ensures put { OnOk result ((i : ℕ) → byte_at chunks.new i ≡ byte_put chunks.old offset bytes.now i) }
    ensures refused { IsOkUnless result Refusal.Memory }
{
    let mut done = 0;
    while done < bytes.len() {
        let at = offset + done as u64;
        let end = bytes.len().min(done + rest_of_chunk(at));
        put_in_chunk(chunks, alloc, at, &bytes[done..end])?;
        done = end;
    }
    Ok(())
}

// Puts bytes in place that lie in one chunk.
fn put_in_chunk(chunks: &mut Chunks, alloc: Global, at: u64, bytes: &[u8]) -> Result<(), Refusal>
    requires { at % 4096 + length bytes.now ≤ 4096 }
    ensures put { OnOk result ((i : ℕ) → byte_at chunks.new i ≡ byte_put chunks.old at bytes.now i) }
    ensures refused { IsOkUnless result Refusal.Memory }
{
    let start = (at % CHUNK) as usize;
    if let Some(chunk) = chunks.get_mut(&(at / CHUNK)) {
        return lay(chunk, start, bytes);
    }
    let mut chunk = Vec::new(alloc);
    lay(&mut chunk, start, bytes)?;
    match chunks.insert(at / CHUNK, chunk) {
        Ok(_) => Ok(()),
        Err(_) => Err(Refusal::Memory),
    }
}

// Lays bytes over those of a chunk.
fn lay(chunk: &mut Vec<u8>, start: usize, bytes: &[u8]) -> Result<(), Refusal>
    requires { start + length bytes.now ≤ 4096 }
    ensures laid { OnOk result (chunk.new.items ≡ pwrite chunk.old.items start bytes.now) }
    ensures refused { IsOkUnless result Refusal.Memory }
{
    if bytes.is_empty() {
        return Ok(());
    }
    reach(chunk, start + bytes.len())?;
    place(chunk.as_mut_slice(), start, bytes);
    Ok(())
}

// Fills a chunk up with zeros to a length.
fn reach(chunk: &mut Vec<u8>, len: usize) -> Result<(), Refusal>
    ensures padded { OnOk result (chunk.new.items ≡ padded chunk.old.items len) }
    ensures refused { IsOkUnless result Refusal.Memory }
{
    if chunk.len() < len && chunk.resize(len, 0).is_err() {
        return Err(Refusal::Memory);
    }
    Ok(())
}

fn place(buffer: &mut [u8], start: usize, bytes: &[u8])
    requires { start + length bytes.now ≤ length buffer.old }
    ensures placed { buffer.new ≡ take start buffer.old ++ bytes.now ++ drop (start + length bytes.now) buffer.old }
    ensures len { length buffer.new ≡ length buffer.old }
{
    buffer[start..start + bytes.len()].copy_from_slice(bytes);
}

// Forgets the bytes from a size on.
fn forget(chunks: &mut Chunks, size: u64)
    ensures { (i : ℕ) → byte_at chunks.new i ≡ byte_cut chunks.old size i }
{
    forget_chunks(chunks, size / CHUNK);
    if let Some(chunk) = chunks.get_mut(&(size / CHUNK)) {
        chunk.truncate((size % CHUNK) as usize);
    }
}

// Forgets the chunks past one. It takes them from the end, so that it looks at one alone of those which stay: else a
// replay with many truncations would take quadratic time.
fn forget_chunks(chunks: &mut Chunks, last: u64)
    ensures { (q : ℕ) → get nat_cmp chunks.new q ≡ (if nat_le q last then get nat_cmp chunks.old q else None) }
{
    'chunks: while let Some((index, _)) = chunks.last_key_value() {
        if *index <= last {
            break;
        }
        chunks.pop_last();
    }
}
