//! What holds over every run of all shards.

ghost use Rattle.sharded.specs.Promises.{ShardFilesAreThose, ShardReadsAreRight, ShardSyncsAreDurable, ShardSyncsAreSynced, ShardsAreFree, ShardsAreRuns, ShardsHoldAlways, ShardsHoldFiles, ShardsMayBegin};

/// What holds over every run of all shards: whichever shard makes a step, and whatever step.
pub fn every_sharded_run()
    ensures shards { ShardsAreRuns }
    ensures free { ShardsAreFree }
    ensures begin { ShardsMayBegin }
    ensures always { ShardsHoldAlways }
    ensures held { ShardsHoldFiles }
    ensures those { ShardFilesAreThose }
    ensures reads { ShardReadsAreRight }
    ensures synced { ShardSyncsAreSynced }
    ensures durable { ShardSyncsAreDurable }
{}
