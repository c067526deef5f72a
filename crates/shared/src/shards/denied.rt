//! Why no file is made.

ghost use Rattle.std.specs.Prelude.{◌≡◌};
ghost use Rattle.shared.specs.ShardResults.{create_number};

use held::denied::Denied;

/// Why no file was made in a shard.
#[derive(Clone, Copy, Debug)]
pub enum CreateDenied {
    /// There is no shard of the number.
    NoShard,
    /// The shard refused it.
    ByShard(Denied),
}

impl CreateDenied {
    /// The number of the refusal, as programs print it: 23 where there is no shard, and else that of `Refusal`.
    pub fn number(&self) -> u64
        ensures { result ≡ create_number self.now }
    {
        match self {
            CreateDenied::NoShard => 23,
            CreateDenied::ByShard(denied) => denied.refusal.number(),
        }
    }
}
