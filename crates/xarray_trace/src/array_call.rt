//! The operations of a trace on its array.

ghost use Rattle.std.specs.Prelude.{◌≡◌, ◌==◌, IfOk, IsOkUnless};
ghost use Rattle.std.specs.FinMap as map;
ghost use Rattle.xarray_trace.specs.Calls.{made};
ghost use Rattle.xarray_trace.specs.declared.array_call.ArrayCall.TheVariants as call;

use crate::answer::Answer;
use crate::entries::count_and_hash;
use pc_types::Refusal;
use std::alloc::Global;
use textline::Stop;
use xarray::{Mark, XArray};

#[derive(Clone, Copy, PartialEq, Eq, Debug)]
pub enum ArrayCall {
    Store(u64, u64),
    Insert(u64, u64),
    /// A first index, an order and a value.
    InsertOrder(u64, u64, u64),
    Erase(u64),
    Load(u64),
    /// An index, and the order of the parts.
    Split(u64, u64),
    SetMark(u64, Mark),
    ClearMark(u64, Mark),
    GetMark(u64, Mark),
    Marked(Mark),
    Find(u64, u64),
    FindMarked(u64, u64, Mark),
    Retag(u64, u64, Mark, Mark),
    Empty,
    Hash,
    Dump,
    New,
}

/// Makes a call. Of a dump this answers the count of entries alone.
pub fn make(alloc: Global, array: &mut XArray, call: ArrayCall) -> Result<Answer, Stop>
    ensures made { IfOk result (λ answer. (answer, array.new) ≡ made array.old call) }
    ensures refused { IsOkUnless result Stop.Memory }
{
    match call {
        ArrayCall::Store(index, value) => store(array, index, value),
        ArrayCall::Insert(index, value) => insert(array, index, value),
        ArrayCall::InsertOrder(index, order, value) => insert_order(array, index, order, value),
        ArrayCall::Split(index, order) => split(array, index, order),
        ArrayCall::SetMark(index, mark) => set_mark(array, index, mark),
        ArrayCall::Erase(index) => Ok(Answer::before(array.erase(index))),
        ArrayCall::ClearMark(index, mark) => {
            array.clear_mark(index, mark);
            Ok(Answer::Ok)
        }
        ArrayCall::Retag(from, to, mark, other) => {
            Ok(Answer::Count(array.retag(from, to, mark, other)))
        }
        ArrayCall::New => {
            *array = XArray::new(alloc);
            Ok(Answer::Ok)
        }
        ArrayCall::Load(index) => Ok(Answer::value(array.load(index))),
        ArrayCall::GetMark(index, mark) => Ok(Answer::Is(array.get_mark(index, mark))),
        ArrayCall::Marked(mark) => Ok(Answer::Is(array.marked(mark))),
        ArrayCall::Find(from, to) => Ok(Answer::found(array.find(from, to))),
        ArrayCall::FindMarked(from, to, mark) => {
            Ok(Answer::found(array.find_marked(from, to, mark)))
        }
        ArrayCall::Empty => Ok(Answer::Is(is_empty(array))),
        ArrayCall::Hash => {
            let (count, hash) = count_and_hash(array);
            Ok(Answer::Hash(count, hash))
        }
        ArrayCall::Dump => Ok(Answer::Entries(count_and_hash(array).0)),
    }
}

/// Whether an array has no entry.
#[tactic(auto, using(crate::proofs::WalkLemmas::empty_test))]
fn is_empty(array: &XArray) -> bool
    ensures { result ≡ (map.len array.now.ranges == 0) }
{
    array.nodes() == 0
}

fn store(array: &mut XArray, index: u64, value: u64) -> Result<Answer, Stop>
    ensures made { IfOk result (λ answer. (answer, array.new) ≡ made array.old (call.Store index value)) }
    ensures refused { IsOkUnless result Stop.Memory }
{
    match array.store(index, value) {
        Ok(before) => Ok(Answer::before(before)),
        Err(Refusal::Memory) => Err(Stop::Memory),
        Err(refusal) => Ok(Answer::Refused(refusal)),
    }
}

fn insert(array: &mut XArray, index: u64, value: u64) -> Result<Answer, Stop>
    ensures made { IfOk result (λ answer. (answer, array.new) ≡ made array.old (call.Insert index value)) }
    ensures refused { IsOkUnless result Stop.Memory }
{
    match array.insert(index, value) {
        Ok(()) => Ok(Answer::Ok),
        Err(Refusal::Memory) => Err(Stop::Memory),
        Err(refusal) => Ok(Answer::Refused(refusal)),
    }
}

fn insert_order(array: &mut XArray, index: u64, order: u64, value: u64) -> Result<Answer, Stop>
    ensures made { IfOk result (λ answer. (answer, array.new) ≡ made array.old (call.InsertOrder index order value)) }
    ensures refused { IsOkUnless result Stop.Memory }
{
    // No order from 64 on is one, so the least of them stands for all.
    let order = order.min(64) as u32;
    match array.insert_order(index, order, value) {
        Ok(()) => Ok(Answer::Ok),
        Err(Refusal::Memory) => Err(Stop::Memory),
        Err(refusal) => Ok(Answer::Refused(refusal)),
    }
}

fn split(array: &mut XArray, index: u64, order: u64) -> Result<Answer, Stop>
    ensures made { IfOk result (λ answer. (answer, array.new) ≡ made array.old (call.Split index order)) }
    ensures refused { IsOkUnless result Stop.Memory }
{
    // The check learns here that no entry has an order above 63, so 64 stands for all from there on. This costs nothing.
    let _nodes = array.nodes();
    let order = order.min(64) as u32;
    match array.split(index, order) {
        Ok(()) => Ok(Answer::Ok),
        Err(Refusal::Memory) => Err(Stop::Memory),
        Err(refusal) => Ok(Answer::Refused(refusal)),
    }
}

fn set_mark(array: &mut XArray, index: u64, mark: Mark) -> Result<Answer, Stop>
    ensures made { IfOk result (λ answer. (answer, array.new) ≡ made array.old (call.SetMark index mark)) }
    ensures refused { IsOkUnless result Stop.Memory }
{
    match array.set_mark(index, mark) {
        Ok(()) => Ok(Answer::Ok),
        Err(refusal) => Ok(Answer::Refused(refusal)),
    }
}
