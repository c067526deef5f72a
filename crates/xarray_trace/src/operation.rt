//! What a line of a trace asks for.

ghost use Rattle.std.specs.Prelude.{◌≡◌, ◌∷◌, [], IfOk, MatchOption};
ghost use Rattle.xarray_trace.specs.Operations.{mark_of, with_four, with_none, with_numbers, with_one, with_three, with_two};

use crate::array_call::ArrayCall;
use crate::id_call::IdCall;
use crate::keyword::Keyword;
use crate::word_call::{Cursor, WordCall};
use std::alloc::{AllocError, Global};
use textline::{Words, numbers};
use xarray::Mark;

/// What a line asks for that is neither empty nor a comment.
#[derive(Clone, Copy, PartialEq, Eq, Debug)]
pub enum Operation {
    Array(ArrayCall),
    Id(IdCall),
    Word(WordCall),
}

impl Operation {
    ghost use Rattle.xarray_trace.specs.Lines.{Means};
    ghost use Rattle.xarray_trace.specs.declared.operation.Operation.{Operation as TheOperation};

    /// The operation that a line asks for, where it is a line of the language.
    pub fn parse(alloc: Global, line: &[u8]) -> Result<Option<Operation>, AllocError>
        ensures { IfOk result (λ r. MatchOption r ((operation : TheOperation) → ¬ (Means line.now operation)) (Means line.now)) }
    {
        let mut words = Words::new(line);
        let Some(name) = words.word() else {
            return Ok(None);
        };
        let Some(keyword) = Keyword::of(name) else {
            return Ok(None);
        };
        match numbers(alloc, &mut words)? {
            Some(numbers) => Ok(operation_with(keyword, numbers.as_slice())),
            None => Ok(None),
        }
    }
}

/// The operation of this name with these numbers, where there is one.
fn operation_with(keyword: Keyword, numbers: &[u64]) -> Option<Operation>
    ensures { result ≡ with_numbers keyword numbers.now }
{
    match numbers {
        [] => with_none(keyword),
        [a] => with_one(keyword, *a),
        [a, b] => with_two(keyword, *a, *b),
        [a, b, c] => with_three(keyword, *a, *b, *c),
        [a, b, c, d] => with_four(keyword, *a, *b, *c, *d),
        _ => None,
    }
}

fn with_none(keyword: Keyword) -> Option<Operation>
    ensures { result ≡ with_none keyword }
{
    match keyword {
        Keyword::Empty => Some(Operation::Array(ArrayCall::Empty)),
        Keyword::Hash => Some(Operation::Array(ArrayCall::Hash)),
        Keyword::Dump => Some(Operation::Array(ArrayCall::Dump)),
        Keyword::New => Some(Operation::Array(ArrayCall::New)),
        Keyword::Ids => Some(Operation::Id(IdCall::New)),
        Keyword::ErrNew => Some(Operation::Word(WordCall::New)),
        _ => None,
    }
}

fn with_one(keyword: Keyword, a: u64) -> Option<Operation>
    ensures { result ≡ with_one keyword a }
{
    match keyword {
        Keyword::Erase => Some(Operation::Array(ArrayCall::Erase(a))),
        Keyword::Load => Some(Operation::Array(ArrayCall::Load(a))),
        Keyword::Marked => Some(Operation::Array(ArrayCall::Marked(mark_of(a)?))),
        Keyword::Free => Some(Operation::Id(IdCall::Free(a))),
        Keyword::IsUsed => Some(Operation::Id(IdCall::IsUsed(a))),
        Keyword::ErrSet => Some(Operation::Word(WordCall::Set(a))),
        Keyword::ErrSample => Some(Operation::Word(WordCall::Sample(Cursor::new(a)?))),
        Keyword::ErrCheck => Some(Operation::Word(WordCall::Check(Cursor::new(a)?))),
        Keyword::ErrAdvance => Some(Operation::Word(WordCall::Advance(Cursor::new(a)?))),
        _ => None,
    }
}

fn with_two(keyword: Keyword, a: u64, b: u64) -> Option<Operation>
    ensures { result ≡ with_two keyword a b }
{
    match keyword {
        Keyword::Store => Some(Operation::Array(ArrayCall::Store(a, b))),
        Keyword::Insert => Some(Operation::Array(ArrayCall::Insert(a, b))),
        Keyword::Split => Some(Operation::Array(ArrayCall::Split(a, b))),
        Keyword::SetMark => Some(Operation::Array(ArrayCall::SetMark(a, mark_of(b)?))),
        Keyword::ClearMark => Some(Operation::Array(ArrayCall::ClearMark(a, mark_of(b)?))),
        Keyword::GetMark => Some(Operation::Array(ArrayCall::GetMark(a, mark_of(b)?))),
        Keyword::Find => Some(Operation::Array(ArrayCall::Find(a, b))),
        Keyword::Alloc => Some(Operation::Id(IdCall::Alloc(a, b))),
        Keyword::AllocCyclic => Some(Operation::Id(IdCall::AllocCyclic(a, b))),
        _ => None,
    }
}

fn with_three(keyword: Keyword, a: u64, b: u64, c: u64) -> Option<Operation>
    ensures { result ≡ with_three keyword a b c }
{
    match keyword {
        Keyword::InsertOrder => Some(Operation::Array(ArrayCall::InsertOrder(a, b, c))),
        Keyword::FindMarked => Some(Operation::Array(ArrayCall::FindMarked(a, b, mark_of(c)?))),
        _ => None,
    }
}

fn with_four(keyword: Keyword, a: u64, b: u64, c: u64, d: u64) -> Option<Operation>
    ensures { result ≡ with_four keyword a b c d }
{
    match keyword {
        Keyword::Retag => {
            let mark = mark_of(c)?;
            let other = mark_of(d)?;
            Some(Operation::Array(ArrayCall::Retag(a, b, mark, other)))
        }
        _ => None,
    }
}

/// The mark of a number, 0 to 2.
fn mark_of(number: u64) -> Option<Mark>
    ensures { result ≡ mark_of number }
{
    match number {
        0 => Some(Mark::M0),
        1 => Some(Mark::M1),
        2 => Some(Mark::M2),
        _ => None,
    }
}
