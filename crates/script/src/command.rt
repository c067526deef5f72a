//! What a line of a script asks for.

ghost use Rattle.std.specs.Prelude.{◌≡◌, ◌≢◌, ◌∷◌, [], ℕ, List, Some, IfOk, IsOkUnless, OnErr};
ghost use Rattle.blockdev.specs.declared.fault.FaultEffect.{FaultEffect as TheEffect};
ghost use Rattle.pc_types.specs.declared.ids.PageIndex.{PageIndex as ThePage};
ghost use Rattle.script.specs.Commands.{Begins, Leaves, range_parts, sync_begin};
ghost use Rattle.script.specs.Keywords.{name_of};

use crate::keyword::Keyword;
use blockdev::FaultEffect;
use pc_types::{FileId, HandleId, PageIndex, Serial, SyncId};
use std::alloc::Global;
use textline::{Fault, Words};
use world::Step;

/// The most bytes that one command reads.
pub const MAX_READ: u64 = 131_072;

/// The greatest code of a fault that a line may name. Not each is one that a device call may fail with.
pub const MAX_CODE: u64 = 65_535;

/// What a line of a script asks for that is neither empty nor a comment.
#[derive(Drop, Debug)]
pub enum Command {
    /// Page size, frames, dirty limit and blocks of the cache.
    Config(u64, u64, u64, u64),
    /// One step of the world.
    Step(Step),
    /// The device call of a request, which fails with this code.
    Fail(Serial, u16, FaultEffect),
    /// A sync of the handle's file, from its beginning to its end: of the whole file, or of the pages of a range.
    Fsync(HandleId, Option<(PageIndex, PageIndex)>),
    /// What the handle is told of failed writes.
    Poll(HandleId),
    /// What is known of a page.
    Tags(FileId, PageIndex),
}

impl Command {
    ghost use Rattle.script.specs.Commands.{Asks, Means, parts_of, IsWithinLimit, ranged};
    ghost use Rattle.script.specs.declared.command.Command.{Command as TheCommand};
    ghost use Rattle.script.specs.declared.keyword.Keyword.{Keyword as TheKeyword};

    /// The command that a line asks for.
    pub fn parse(alloc: Global, line: &[u8]) -> Result<Command, Fault>
        ensures ok { IfOk result (Means line.now) }
        ensures malformed { result ≡ Err Fault.Malformed → (c : TheCommand) → ¬ (Means line.now c) }
    {
        let mut words = Words::new(line);
        let Some(name) = words.word() else {
            return Err(Fault::Malformed);
        };
        let Some(keyword) = Keyword::of(name) else {
            return Err(Fault::Malformed);
        };
        let command = Command::with_arguments(alloc, keyword, &mut words)?;
        if words.end().is_ok() {
            return Ok(command);
        }
        command.with_range(&mut words)
    }

    /// The command with a range of pages, which the words left name: `sync H A B` or `fsync H A B`. No other command takes
    /// one.
    fn with_range(&self, words: &mut Words) -> Result<Command, Fault>
        ensures ok { IfOk result (λ c. (all : List (List ℕ)) → Begins all (parts_of self.now) words.old → Asks all c) }
        ensures none { OnErr result ((k : TheKeyword) (more : List (List ℕ)) → Begins (name_of k ∷ more) (parts_of self.now) words.old → words.old ≢ [] → (c : TheCommand) → ¬ (Asks (name_of k ∷ more) c)) }
        ensures malformed { IsOkUnless result Fault.Malformed }
    {
        let range = range(words)?;
        self.ranged(range).ok_or(Fault::Malformed)
    }

    /// The command with a range of pages, where it takes one.
    fn ranged(&self, range: (PageIndex, PageIndex)) -> Option<Command>
        ensures { result ≡ ranged self.now range }
    {
        match self {
            Command::Step(Step::SyncBegin(handle)) => {
                Some(Command::Step(Step::SyncBeginRange(*handle, range.0, range.1)))
            }
            Command::Fsync(handle, None) => Some(Command::Fsync(*handle, Some(range))),
            _ => None,
        }
    }

    /// The command of this name, with the arguments that the next words are.
    fn with_arguments(alloc: Global, keyword: Keyword, words: &mut Words) -> Result<Command, Fault>
        ensures ok { IfOk result (λ c. Begins (name_of keyword ∷ words.old) (parts_of c) words.new × IsWithinLimit c) }
        ensures malformed { result ≡ Err Fault.Malformed → (c : TheCommand) → ¬ (Asks (name_of keyword ∷ words.old) c) }
    {
        match keyword {
            Keyword::Config => Command::config(words),
            Keyword::Create => Ok(Command::Step(Step::Create)),
            Keyword::Open => Command::open(words),
            Keyword::Close => Command::close(words),
            Keyword::Size => Command::size(words),
            Keyword::Read => Command::read(words),
            Keyword::Write => Command::write(alloc, words),
            Keyword::Append => Command::append(alloc, words),
            Keyword::Truncate => Command::truncate(words),
            Keyword::Fill => Command::fill(words),
            Keyword::Flush => Command::flush(words),
            Keyword::Do => Command::call(words),
            Keyword::Fail => Command::fail(words),
            Keyword::End => Command::end(words),
            Keyword::Sync => Command::sync(words),
            Keyword::Step => Command::step(words),
            Keyword::Drop => Command::drop_sync(words),
            Keyword::Fsync => Command::fsync(words),
            Keyword::Poll => Command::poll(words),
            Keyword::Evict => Ok(Command::Step(Step::Evict)),
            Keyword::Age => Ok(Command::Step(Step::Age)),
            Keyword::Tags => Command::tags(words),
        }
    }

    /// `config P FRAMES DIRTY BLOCKS`
    fn config(words: &mut Words) -> Result<Command, Fault>
        ensures ok { IfOk result (λ c. Begins (name_of Keyword.Config ∷ words.old) (parts_of c) words.new × IsWithinLimit c) }
        ensures malformed { result ≡ Err Fault.Malformed → (c : TheCommand) → ¬ (Asks (name_of Keyword.Config ∷ words.old) c) }
    {
        let page = words.number()?;
        let frames = words.number()?;
        let dirty_limit = words.number()?;
        let blocks = words.number()?;
        Ok(Command::Config(page, frames, dirty_limit, blocks))
    }

    /// `open F`
    fn open(words: &mut Words) -> Result<Command, Fault>
        ensures ok { IfOk result (λ c. Begins (name_of Keyword.Open ∷ words.old) (parts_of c) words.new × IsWithinLimit c) }
        ensures malformed { result ≡ Err Fault.Malformed → (c : TheCommand) → ¬ (Asks (name_of Keyword.Open ∷ words.old) c) }
    {
        Ok(Command::Step(Step::Open(FileId(words.number()?))))
    }

    /// `close H`
    fn close(words: &mut Words) -> Result<Command, Fault>
        ensures ok { IfOk result (λ c. Begins (name_of Keyword.Close ∷ words.old) (parts_of c) words.new × IsWithinLimit c) }
        ensures malformed { result ≡ Err Fault.Malformed → (c : TheCommand) → ¬ (Asks (name_of Keyword.Close ∷ words.old) c) }
    {
        Ok(Command::Step(Step::Close(HandleId(words.number()?))))
    }

    /// `size H`
    fn size(words: &mut Words) -> Result<Command, Fault>
        ensures ok { IfOk result (λ c. Begins (name_of Keyword.Size ∷ words.old) (parts_of c) words.new × IsWithinLimit c) }
        ensures malformed { result ≡ Err Fault.Malformed → (c : TheCommand) → ¬ (Asks (name_of Keyword.Size ∷ words.old) c) }
    {
        Ok(Command::Step(Step::Size(HandleId(words.number()?))))
    }

    /// `read H O N`
    fn read(words: &mut Words) -> Result<Command, Fault>
        ensures ok { IfOk result (λ c. Begins (name_of Keyword.Read ∷ words.old) (parts_of c) words.new × IsWithinLimit c) }
        ensures malformed { result ≡ Err Fault.Malformed → (c : TheCommand) → ¬ (Asks (name_of Keyword.Read ∷ words.old) c) }
    {
        let handle = HandleId(words.number()?);
        let offset = words.number()?;
        let count = words.number()?;
        if count > MAX_READ {
            return Err(Fault::Malformed);
        }
        Ok(Command::Step(Step::Read(handle, offset, count)))
    }

    /// `write H O HEX`
    fn write(alloc: Global, words: &mut Words) -> Result<Command, Fault>
        ensures ok { IfOk result (λ c. Begins (name_of Keyword.Write ∷ words.old) (parts_of c) words.new × IsWithinLimit c) }
        ensures malformed { result ≡ Err Fault.Malformed → (c : TheCommand) → ¬ (Asks (name_of Keyword.Write ∷ words.old) c) }
    {
        let handle = HandleId(words.number()?);
        let offset = words.number()?;
        Ok(Command::Step(Step::Write(handle, offset, words.bytes(alloc)?)))
    }

    /// `append H HEX`
    fn append(alloc: Global, words: &mut Words) -> Result<Command, Fault>
        ensures ok { IfOk result (λ c. Begins (name_of Keyword.Append ∷ words.old) (parts_of c) words.new × IsWithinLimit c) }
        ensures malformed { result ≡ Err Fault.Malformed → (c : TheCommand) → ¬ (Asks (name_of Keyword.Append ∷ words.old) c) }
    {
        let handle = HandleId(words.number()?);
        Ok(Command::Step(Step::Append(handle, words.bytes(alloc)?)))
    }

    /// `truncate H S`
    fn truncate(words: &mut Words) -> Result<Command, Fault>
        ensures ok { IfOk result (λ c. Begins (name_of Keyword.Truncate ∷ words.old) (parts_of c) words.new × IsWithinLimit c) }
        ensures malformed { result ≡ Err Fault.Malformed → (c : TheCommand) → ¬ (Asks (name_of Keyword.Truncate ∷ words.old) c) }
    {
        let handle = HandleId(words.number()?);
        Ok(Command::Step(Step::Truncate(handle, words.number()?)))
    }

    /// `fill H P`
    fn fill(words: &mut Words) -> Result<Command, Fault>
        ensures ok { IfOk result (λ c. Begins (name_of Keyword.Fill ∷ words.old) (parts_of c) words.new × IsWithinLimit c) }
        ensures malformed { result ≡ Err Fault.Malformed → (c : TheCommand) → ¬ (Asks (name_of Keyword.Fill ∷ words.old) c) }
    {
        let handle = HandleId(words.number()?);
        Ok(Command::Step(Step::FillBegin(handle, PageIndex(words.number()?))))
    }

    /// `flush F`
    fn flush(words: &mut Words) -> Result<Command, Fault>
        ensures ok { IfOk result (λ c. Begins (name_of Keyword.Flush ∷ words.old) (parts_of c) words.new × IsWithinLimit c) }
        ensures malformed { result ≡ Err Fault.Malformed → (c : TheCommand) → ¬ (Asks (name_of Keyword.Flush ∷ words.old) c) }
    {
        Ok(Command::Step(Step::FlushBegin(FileId(words.number()?))))
    }

    /// `do T`
    fn call(words: &mut Words) -> Result<Command, Fault>
        ensures ok { IfOk result (λ c. Begins (name_of Keyword.Do ∷ words.old) (parts_of c) words.new × IsWithinLimit c) }
        ensures malformed { result ≡ Err Fault.Malformed → (c : TheCommand) → ¬ (Asks (name_of Keyword.Do ∷ words.old) c) }
    {
        Ok(Command::Step(Step::Call(Serial(words.number()?))))
    }

    /// `fail T CODE old` or `fail T CODE new`
    fn fail(words: &mut Words) -> Result<Command, Fault>
        ensures ok { IfOk result (λ c. Begins (name_of Keyword.Fail ∷ words.old) (parts_of c) words.new × IsWithinLimit c) }
        ensures malformed { result ≡ Err Fault.Malformed → (c : TheCommand) → ¬ (Asks (name_of Keyword.Fail ∷ words.old) c) }
    {
        let serial = Serial(words.number()?);
        let code = words.number()?;
        if code > MAX_CODE {
            return Err(Fault::Malformed);
        }
        Ok(Command::Fail(serial, code as u16, effect(words)?))
    }

    /// `end T`
    fn end(words: &mut Words) -> Result<Command, Fault>
        ensures ok { IfOk result (λ c. Begins (name_of Keyword.End ∷ words.old) (parts_of c) words.new × IsWithinLimit c) }
        ensures malformed { result ≡ Err Fault.Malformed → (c : TheCommand) → ¬ (Asks (name_of Keyword.End ∷ words.old) c) }
    {
        Ok(Command::Step(Step::End(Serial(words.number()?))))
    }

    /// `sync H`
    fn sync(words: &mut Words) -> Result<Command, Fault>
        ensures ok { IfOk result (λ c. Begins (name_of Keyword.Sync ∷ words.old) (parts_of c) words.new × IsWithinLimit c) }
        ensures malformed { result ≡ Err Fault.Malformed → (c : TheCommand) → ¬ (Asks (name_of Keyword.Sync ∷ words.old) c) }
    {
        Ok(Command::Step(Step::SyncBegin(HandleId(words.number()?))))
    }

    /// `step S`
    fn step(words: &mut Words) -> Result<Command, Fault>
        ensures ok { IfOk result (λ c. Begins (name_of Keyword.Step ∷ words.old) (parts_of c) words.new × IsWithinLimit c) }
        ensures malformed { result ≡ Err Fault.Malformed → (c : TheCommand) → ¬ (Asks (name_of Keyword.Step ∷ words.old) c) }
    {
        Ok(Command::Step(Step::SyncStep(SyncId(words.number()?))))
    }

    /// `drop S`
    fn drop_sync(words: &mut Words) -> Result<Command, Fault>
        ensures ok { IfOk result (λ c. Begins (name_of Keyword.Drop ∷ words.old) (parts_of c) words.new × IsWithinLimit c) }
        ensures malformed { result ≡ Err Fault.Malformed → (c : TheCommand) → ¬ (Asks (name_of Keyword.Drop ∷ words.old) c) }
    {
        Ok(Command::Step(Step::SyncDrop(SyncId(words.number()?))))
    }

    /// `fsync H`
    fn fsync(words: &mut Words) -> Result<Command, Fault>
        ensures ok { IfOk result (λ c. Begins (name_of Keyword.Fsync ∷ words.old) (parts_of c) words.new × IsWithinLimit c) }
        ensures malformed { result ≡ Err Fault.Malformed → (c : TheCommand) → ¬ (Asks (name_of Keyword.Fsync ∷ words.old) c) }
    {
        Ok(Command::Fsync(HandleId(words.number()?), None))
    }

    /// `poll H`
    fn poll(words: &mut Words) -> Result<Command, Fault>
        ensures ok { IfOk result (λ c. Begins (name_of Keyword.Poll ∷ words.old) (parts_of c) words.new × IsWithinLimit c) }
        ensures malformed { result ≡ Err Fault.Malformed → (c : TheCommand) → ¬ (Asks (name_of Keyword.Poll ∷ words.old) c) }
    {
        Ok(Command::Poll(HandleId(words.number()?)))
    }

    /// `tags F P`
    fn tags(words: &mut Words) -> Result<Command, Fault>
        ensures ok { IfOk result (λ c. Begins (name_of Keyword.Tags ∷ words.old) (parts_of c) words.new × IsWithinLimit c) }
        ensures malformed { result ≡ Err Fault.Malformed → (c : TheCommand) → ¬ (Asks (name_of Keyword.Tags ∷ words.old) c) }
    {
        let file = FileId(words.number()?);
        Ok(Command::Tags(file, PageIndex(words.number()?)))
    }
}

/// The range of pages that the words left are: two numbers, and nothing after them.
fn range(words: &mut Words) -> Result<(PageIndex, PageIndex), Fault>
    ensures ok { IfOk result (λ r. Begins words.old (range_parts (Some r)) []) }
    ensures none { OnErr result ((r : ThePage × ThePage) → ¬ (Begins words.old (range_parts (Some r)) [])) }
    ensures malformed { IsOkUnless result Fault.Malformed }
{
    let first = PageIndex(words.number()?);
    let last = PageIndex(words.number()?);
    words.end()?;
    Ok((first, last))
}

/// The step that begins a sync: of the whole file, or of the pages of a range.
pub fn sync_begin(handle: HandleId, range: Option<(PageIndex, PageIndex)>) -> Step
    ensures { result ≡ sync_begin handle range }
{
    match range {
        None => Step::SyncBegin(handle),
        Some((first, last)) => Step::SyncBeginRange(handle, first, last),
    }
}

/// What the next word says that a write which fails leaves in its block: `old` or `new` bytes.
fn effect(words: &mut Words) -> Result<FaultEffect, Fault>
    ensures ok { IfOk result (λ e. Begins words.old (Leaves e ∷ []) words.new) }
    ensures none { OnErr result ((e : TheEffect) (rest : List (List ℕ)) → ¬ (Begins words.old (Leaves e ∷ []) rest)) }
    ensures malformed { IsOkUnless result Fault.Malformed }
{
    match words.word() {
        Some(b"old") => Ok(FaultEffect::Old),
        Some(b"new") => Ok(FaultEffect::New),
        _ => Err(Fault::Malformed),
    }
}
