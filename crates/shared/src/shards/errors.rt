//! What handles are told of failed writes.

ghost use Rattle.std.specs.Prelude.{◌≡◌, ◌+◌, ◌≢◌, ◌<◌, ◌≤◌, Err, IfErr, IfOk, Ok, length};
ghost use Rattle.errboard.specs.Views.{told_of};
ghost use Rattle.pc_types.specs.declared.refusal.Refusal.TheVariants.{BadHandle};
ghost use Rattle.shared.specs.Polls.{Polled};

use crate::handle::{FailedWrite, Handle};
use crate::shards::cache::ShardedCache;
use crate::shards::handle::ShardHandle;
use crate::shards::naming::ShardNaming;
use crate::shards::place::{Four, Place, Sixteen, at_quarter};
use blockdev::BlockDevice;
use pc_types::{ErrCode, Refusal};
use trail::Trail;

impl<B: ShardNaming, D: BlockDevice, T: Trail, const K: u64> Place<B, D, T, K> {
    fn poll_error(&self, shard: u64, handle: &mut Handle) -> Result<Option<ErrCode>, Refusal>
        requires at { (K ≤ shard) × (shard < K + 1) × (shard < B.shards) }
        requires came { handle.old.cache ≡ (B.names shard).name → handle.old.pass.board ≡ (B.names shard).board }
        ensures foreign { handle.old.cache ≢ (B.names shard).name → (result ≡ Err BadHandle) × (handle.new ≡ handle.old) }
        ensures answers { handle.old.cache ≡ (B.names shard).name → IfErr result (λ _. ⊥) }
        ensures same { handle.new ≡ record handle.old { pass = handle.new.pass } }
        ensures polled { IfOk result (Polled handle.old.pass handle.new.pass) }
    {
        self.cache().poll_error(handle)
    }

    fn tell_error(
        &self,
        shard: u64,
        handle: &mut Handle,
        failed: &mut FailedWrite,
    ) -> Result<(), Refusal>
        requires at { (K ≤ shard) × (shard < K + 1) × (shard < B.shards) }
        requires came { handle.old.cache ≡ (B.names shard).name → handle.old.pass.board ≡ (B.names shard).board }
        requires failed { failed.old.cache ≡ (B.names shard).name → failed.old.receipt.board ≡ (B.names shard).board }
        ensures foreign { handle.old.cache ≢ (B.names shard).name → (result ≡ Err BadHandle) × (handle.new ≡ handle.old) }
        ensures answers { handle.old.cache ≡ (B.names shard).name → result ≡ Ok tt }
        ensures other { failed.old.cache ≢ (B.names shard).name → handle.new ≡ handle.old }
        ensures told { handle.old.cache ≡ (B.names shard).name → failed.old.cache ≡ (B.names shard).name → handle.new ≡ record handle.old { pass = record handle.old.pass { known = told_of handle.old.file.0 handle.old.pass.known failed.old.receipt.file failed.old.receipt.recorded } } }
        ensures knows { handle.old.cache ≡ (B.names shard).name → failed.old.cache ≡ (B.names shard).name → failed.old.receipt.file ≡ handle.old.file.0 → length failed.old.receipt.recorded ≤ length handle.new.pass.known }
        ensures failed { failed.new ≡ failed.old }
    {
        self.cache().tell_error(handle, failed)
    }
}

impl<
    B: ShardNaming,
    D: BlockDevice,
    T: Trail,
    const I: u64,
    const J: u64,
    const K: u64,
    const L: u64,
> Four<B, D, T, I, J, K, L> {
    fn poll_error(&self, shard: u64, handle: &mut Handle) -> Result<Option<ErrCode>, Refusal>
        requires whole { (J ≡ I + 1) × (K ≡ J + 1) × (L ≡ K + 1) }
        requires at { (I ≤ shard) × (shard < L + 1) × (shard < B.shards) }
        requires came { handle.old.cache ≡ (B.names shard).name → handle.old.pass.board ≡ (B.names shard).board }
        ensures foreign { handle.old.cache ≢ (B.names shard).name → (result ≡ Err BadHandle) × (handle.new ≡ handle.old) }
        ensures answers { handle.old.cache ≡ (B.names shard).name → IfErr result (λ _. ⊥) }
        ensures same { handle.new ≡ record handle.old { pass = handle.new.pass } }
        ensures polled { IfOk result (Polled handle.old.pass handle.new.pass) }
    {
        at_quarter!(self, shard, [J, K, L], poll_error(shard, handle))
    }

    fn tell_error(
        &self,
        shard: u64,
        handle: &mut Handle,
        failed: &mut FailedWrite,
    ) -> Result<(), Refusal>
        requires whole { (J ≡ I + 1) × (K ≡ J + 1) × (L ≡ K + 1) }
        requires at { (I ≤ shard) × (shard < L + 1) × (shard < B.shards) }
        requires came { handle.old.cache ≡ (B.names shard).name → handle.old.pass.board ≡ (B.names shard).board }
        requires failed { failed.old.cache ≡ (B.names shard).name → failed.old.receipt.board ≡ (B.names shard).board }
        ensures foreign { handle.old.cache ≢ (B.names shard).name → (result ≡ Err BadHandle) × (handle.new ≡ handle.old) }
        ensures answers { handle.old.cache ≡ (B.names shard).name → result ≡ Ok tt }
        ensures other { failed.old.cache ≢ (B.names shard).name → handle.new ≡ handle.old }
        ensures told { handle.old.cache ≡ (B.names shard).name → failed.old.cache ≡ (B.names shard).name → handle.new ≡ record handle.old { pass = record handle.old.pass { known = told_of handle.old.file.0 handle.old.pass.known failed.old.receipt.file failed.old.receipt.recorded } } }
        ensures knows { handle.old.cache ≡ (B.names shard).name → failed.old.cache ≡ (B.names shard).name → failed.old.receipt.file ≡ handle.old.file.0 → length failed.old.receipt.recorded ≤ length handle.new.pass.known }
        ensures failed { failed.new ≡ failed.old }
    {
        at_quarter!(self, shard, [J, K, L], tell_error(shard, handle, failed))
    }
}

impl<B: ShardNaming, D: BlockDevice, T: Trail> Sixteen<B, D, T> {
    fn poll_error(&self, shard: u64, handle: &mut Handle) -> Result<Option<ErrCode>, Refusal>
        requires at { (shard < 16) × (shard < B.shards) }
        requires came { handle.old.cache ≡ (B.names shard).name → handle.old.pass.board ≡ (B.names shard).board }
        ensures foreign { handle.old.cache ≢ (B.names shard).name → (result ≡ Err BadHandle) × (handle.new ≡ handle.old) }
        ensures answers { handle.old.cache ≡ (B.names shard).name → IfErr result (λ _. ⊥) }
        ensures same { handle.new ≡ record handle.old { pass = handle.new.pass } }
        ensures polled { IfOk result (Polled handle.old.pass handle.new.pass) }
    {
        at_quarter!(self, shard, [4, 8, 12], poll_error(shard, handle))
    }

    fn tell_error(
        &self,
        shard: u64,
        handle: &mut Handle,
        failed: &mut FailedWrite,
    ) -> Result<(), Refusal>
        requires at { (shard < 16) × (shard < B.shards) }
        requires came { handle.old.cache ≡ (B.names shard).name → handle.old.pass.board ≡ (B.names shard).board }
        requires failed { failed.old.cache ≡ (B.names shard).name → failed.old.receipt.board ≡ (B.names shard).board }
        ensures foreign { handle.old.cache ≢ (B.names shard).name → (result ≡ Err BadHandle) × (handle.new ≡ handle.old) }
        ensures answers { handle.old.cache ≡ (B.names shard).name → result ≡ Ok tt }
        ensures other { failed.old.cache ≢ (B.names shard).name → handle.new ≡ handle.old }
        ensures told { handle.old.cache ≡ (B.names shard).name → failed.old.cache ≡ (B.names shard).name → handle.new ≡ record handle.old { pass = record handle.old.pass { known = told_of handle.old.file.0 handle.old.pass.known failed.old.receipt.file failed.old.receipt.recorded } } }
        ensures knows { handle.old.cache ≡ (B.names shard).name → failed.old.cache ≡ (B.names shard).name → failed.old.receipt.file ≡ handle.old.file.0 → length failed.old.receipt.recorded ≤ length handle.new.pass.known }
        ensures failed { failed.new ≡ failed.old }
    {
        at_quarter!(self, shard, [4, 8, 12], tell_error(shard, handle, failed))
    }
}

impl<B: ShardNaming, D: BlockDevice, T: Trail> ShardedCache<B, D, T> {
    /// The code of the last failed write that the handle was not told of. It takes no lock and never waits.
    pub fn poll_error(&self, handle: &mut ShardHandle) -> Result<Option<ErrCode>, Refusal>
        requires came { handle.old.handle.cache ≡ (B.names handle.old.shard).name → handle.old.handle.pass.board ≡ (B.names handle.old.shard).board }
        ensures absent { B.shards ≤ handle.old.shard → (result ≡ Err BadHandle) × (handle.new ≡ handle.old) }
        ensures foreign { handle.old.handle.cache ≢ (B.names handle.old.shard).name → (result ≡ Err BadHandle) × (handle.new ≡ handle.old) }
        ensures answers { handle.old.shard < B.shards → handle.old.handle.cache ≡ (B.names handle.old.shard).name → IfErr result (λ _. ⊥) }
        ensures same { handle.new ≡ record handle.old { handle = record handle.old.handle { pass = handle.new.handle.pass } } }
        ensures polled { IfOk result (Polled handle.old.handle.pass handle.new.handle.pass) }
    {
        if handle.shard >= self.shards {
            return Err(Refusal::BadHandle);
        }
        self.caches.poll_error(handle.shard, &mut handle.handle)
    }

    /// Tells a handle of a failed write, without its code: the next `poll_error` answers that. One of another file or of another
    /// shard tells nothing. It takes no lock and never waits.
    pub fn tell_error(
        &self,
        handle: &mut ShardHandle,
        failed: &mut FailedWrite,
    ) -> Result<(), Refusal>
        requires came { handle.old.handle.cache ≡ (B.names handle.old.shard).name → handle.old.handle.pass.board ≡ (B.names handle.old.shard).board }
        requires failed { failed.old.cache ≡ (B.names handle.old.shard).name → failed.old.receipt.board ≡ (B.names handle.old.shard).board }
        ensures absent { B.shards ≤ handle.old.shard → (result ≡ Err BadHandle) × (handle.new ≡ handle.old) }
        ensures foreign { handle.old.handle.cache ≢ (B.names handle.old.shard).name → (result ≡ Err BadHandle) × (handle.new ≡ handle.old) }
        ensures answers { handle.old.shard < B.shards → handle.old.handle.cache ≡ (B.names handle.old.shard).name → result ≡ Ok tt }
        ensures other { failed.old.cache ≢ (B.names handle.old.shard).name → handle.new ≡ handle.old }
        ensures told { handle.old.shard < B.shards → handle.old.handle.cache ≡ (B.names handle.old.shard).name → failed.old.cache ≡ (B.names handle.old.shard).name → handle.new ≡ record handle.old { handle = record handle.old.handle { pass = record handle.old.handle.pass { known = told_of handle.old.handle.file.0 handle.old.handle.pass.known failed.old.receipt.file failed.old.receipt.recorded } } } }
        ensures knows { handle.old.shard < B.shards → handle.old.handle.cache ≡ (B.names handle.old.shard).name → failed.old.cache ≡ (B.names handle.old.shard).name → failed.old.receipt.file ≡ handle.old.handle.file.0 → length failed.old.receipt.recorded ≤ length handle.new.handle.pass.known }
        ensures failed { failed.new ≡ failed.old }
    {
        if handle.shard >= self.shards {
            return Err(Refusal::BadHandle);
        }
        self.caches
            .tell_error(handle.shard, &mut handle.handle, failed)
    }
}
