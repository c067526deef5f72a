//! Requests that are begun, carried out and ended in one, so that none is in flight afterwards. A write that failed is recorded as
//! its request ends, whoever began it.

ghost use Rattle.std.specs.Prelude.{◌≡◌, ◌<◌, Some};
ghost use Rattle.errboard.specs.Shown.{RecorderSeen};
ghost use Rattle.pc_types.specs.declared.limits.TheConstants.{MAX_FILES};
ghost use Rattle.world.specs.declared.step.Step.TheVariants as step;
ghost use Rattle.filesvc.specs.Rests as rests;
ghost use Rattle.filesvc.specs.Rests.{IsNoted, IsResting};

use blockdev::BlockDevice;
use cachecore::{AtOnce, Reply};
use errboard::Recorder;
use pc_types::{FileId, HandleId, PageIndex};
use world::World;

/// Fills a page. Nothing is recorded, whatever its end: a fill that fails loses no bytes.
pub(crate) fn fill_page<D: BlockDevice>(
    world: &mut World<D>,
    handle: HandleId,
    page: PageIndex,
) -> Reply
    requires { IsResting world.old }
    ensures rests { IsResting world.new }
    ensures made { (errors : RecorderSeen) → rests.AtOnce world.old errors (step.FillBegin handle page) result world.new errors }
{
    match world.fill_at_once(handle, page) {
        AtOnce::Answered(reply) => reply,
        AtOnce::Ended(_, reply) => reply,
    }
}

/// Writes the file's lowest dirty page back.
pub(crate) fn flush_page<D: BlockDevice>(
    world: &mut World<D>,
    recorder: &mut Recorder,
    file: FileId,
) -> Reply
    requires { IsResting world.old }
    ensures rests { IsResting world.new }
    ensures made { rests.AtOnce world.old recorder.old (step.FlushBegin file) result world.new recorder.new }
{
    match world.flush_at_once(file) {
        AtOnce::Answered(reply) => reply,
        AtOnce::Ended(file, reply) => {
            note(recorder, file, &reply);
            reply
        }
    }
}

/// Records a write of the file that ended so, where it failed.
pub(crate) fn note(recorder: &mut Recorder, file: FileId, end: &Reply)
    requires { file.0 < MAX_FILES }
    ensures { IsNoted recorder.old (Some file.0) end.now recorder.new }
{
    if let Reply::Failed(code) = end {
        recorder.record(file, *code);
    }
}
