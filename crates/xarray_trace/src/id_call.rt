//! The operations of a trace on its identifiers.

ghost use Rattle.std.specs.Prelude.{◌≡◌, IfOk, IsOkUnless};
ghost use Rattle.xarray_trace.specs.Identifiers.{Gives, freed};
ghost use Rattle.xarray_trace.specs.declared.id_call.IdCall.TheVariants as call;

use crate::answer::Answer;
use idalloc::IdAlloc;
use pc_types::Refusal;
use std::alloc::Global;
use textline::Stop;

#[derive(Clone, Copy, PartialEq, Eq, Debug)]
pub enum IdCall {
    New,
    Alloc(u64, u64),
    AllocCyclic(u64, u64),
    Free(u64),
    IsUsed(u64),
}

/// Makes a call.
pub fn give(alloc: Global, ids: &mut IdAlloc, call: IdCall) -> Result<Answer, Stop>
    ensures gives { IfOk result (λ answer. Gives ids.old call answer ids.new) }
    ensures refused { IsOkUnless result Stop.Memory }
{
    match call {
        IdCall::New => {
            *ids = IdAlloc::new(alloc);
            Ok(Answer::Ok)
        }
        IdCall::Alloc(min, max) => give_lowest(ids, min, max),
        IdCall::AllocCyclic(min, max) => give_next(ids, min, max),
        IdCall::Free(id) => Ok(free(ids, id)),
        IdCall::IsUsed(id) => Ok(Answer::Is(ids.is_used(id))),
    }
}

fn give_lowest(ids: &mut IdAlloc, min: u64, max: u64) -> Result<Answer, Stop>
    ensures gives { IfOk result (λ answer. Gives ids.old (call.Alloc min max) answer ids.new) }
    ensures refused { IsOkUnless result Stop.Memory }
{
    match ids.alloc(min, max) {
        Ok(id) => Ok(Answer::Id(id)),
        Err(Refusal::Memory) => Err(Stop::Memory),
        Err(refusal) => Ok(Answer::Refused(refusal)),
    }
}

fn give_next(ids: &mut IdAlloc, min: u64, max: u64) -> Result<Answer, Stop>
    ensures gives { IfOk result (λ answer. Gives ids.old (call.AllocCyclic min max) answer ids.new) }
    ensures refused { IsOkUnless result Stop.Memory }
{
    match ids.alloc_cyclic(min, max) {
        Ok((id, wrapped)) => Ok(Answer::CyclicId(id, wrapped)),
        Err(Refusal::Memory) => Err(Stop::Memory),
        Err(refusal) => Ok(Answer::Refused(refusal)),
    }
}

fn free(ids: &mut IdAlloc, id: u64) -> Answer
    ensures { (result, ids.new) ≡ freed ids.old id }
{
    match ids.free(id) {
        Ok(()) => Answer::Ok,
        Err(refusal) => Answer::Refused(refusal),
    }
}
