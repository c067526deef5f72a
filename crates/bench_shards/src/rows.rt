//! Who reads what.

ghost use Rattle.std.specs.Prelude.{◌<◌, ◌≤◌};

/// Which threads read, each a file of its own, and what has the files.
#[derive(Clone, Copy, PartialEq, Eq, Debug)]
pub enum Who {
    OneOfShared,
    FourOfShared,
    OneOfShards,
    FourOfShards,
    EightOfShards,
    FourOfHotShard,
    OneCopies,
    FourCopy,
}

impl Who {
    pub const ALL: [Who; 8] = [
        Who::OneOfShared,
        Who::FourOfShared,
        Who::OneOfShards,
        Who::FourOfShards,
        Who::EightOfShards,
        Who::FourOfHotShard,
        Who::OneCopies,
        Who::FourCopy,
    ];

    pub fn label(self) -> &'static str {
        match self {
            Who::OneOfShared => "SharedCache, one thread",
            Who::FourOfShared => "SharedCache, four threads",
            Who::OneOfShards => "one shard, one thread",
            Who::FourOfShards => "four shards, four threads",
            Who::EightOfShards => "eight shards, eight threads",
            Who::FourOfHotShard => "four shards, four threads, two of them in one shard",
            Who::OneCopies => "plain copy, one thread",
            Who::FourCopy => "plain copy, four threads",
        }
    }

    /// How many threads there are.
    pub fn threads(self) -> u64
        ensures some { 0 < result }
        ensures few { result ≤ 8 }
    {
        match self {
            Who::OneOfShared | Who::OneOfShards | Who::OneCopies => 1,
            Who::FourOfShared | Who::FourOfShards | Who::FourOfHotShard | Who::FourCopy => 4,
            Who::EightOfShards => 8,
        }
    }

    /// Who reads the same by one thread.
    pub fn alone(self) -> Who {
        match self {
            Who::OneCopies | Who::FourCopy => Who::OneCopies,
            _ => Who::OneOfShared,
        }
    }
}

/// How many bytes a read reads.
#[derive(Clone, Copy, PartialEq, Eq, Debug)]
pub enum Size {
    Small,
    Page,
}

impl Size {
    /// In bytes, which are a power of two.
    pub fn bytes(self) -> u64
        ensures some { 0 < result }
        ensures most { result ≤ 4096 }
    {
        match self {
            Size::Small => 64,
            Size::Page => 4_096,
        }
    }

    /// How many reads a thread makes in a round, unless it is a sample: the whole of the files is read, with one thread as with many.
    pub fn reads(self) -> u64
        ensures { 0 < result }
    {
        match self {
            Size::Small => 1_000_000,
            Size::Page => 100_000,
        }
    }
}
