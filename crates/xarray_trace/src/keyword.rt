//! The names of the operations.

ghost use Rattle.std.specs.Prelude.{◌≡◌, ◌≢◌, MatchOption, All};
ghost use Rattle.xarray_trace.specs.Keywords.{name_of};
ghost use Rattle.xarray_trace.specs.declared.keyword.Keyword.{Keyword as TheKeyword};

/// The first word of an operation.
#[derive(Clone, Copy, PartialEq, Eq, Debug)]
pub enum Keyword {
    Store,
    Insert,
    InsertOrder,
    Erase,
    Load,
    Split,
    SetMark,
    ClearMark,
    GetMark,
    Marked,
    Find,
    FindMarked,
    Retag,
    Empty,
    Hash,
    Dump,
    New,
    Ids,
    Alloc,
    AllocCyclic,
    Free,
    IsUsed,
    ErrNew,
    ErrSet,
    ErrSample,
    ErrCheck,
    ErrAdvance,
}

/// All of them.
const ALL: [Keyword; 27] = [
    Keyword::Store,
    Keyword::Insert,
    Keyword::InsertOrder,
    Keyword::Erase,
    Keyword::Load,
    Keyword::Split,
    Keyword::SetMark,
    Keyword::ClearMark,
    Keyword::GetMark,
    Keyword::Marked,
    Keyword::Find,
    Keyword::FindMarked,
    Keyword::Retag,
    Keyword::Empty,
    Keyword::Hash,
    Keyword::Dump,
    Keyword::New,
    Keyword::Ids,
    Keyword::Alloc,
    Keyword::AllocCyclic,
    Keyword::Free,
    Keyword::IsUsed,
    Keyword::ErrNew,
    Keyword::ErrSet,
    Keyword::ErrSample,
    Keyword::ErrCheck,
    Keyword::ErrAdvance,
];

impl Keyword {
    /// The keyword that is written so, where there is one.
    pub fn of(word: &[u8]) -> Option<Keyword>
        ensures { MatchOption result ((keyword : TheKeyword) → name_of keyword ≢ word.now) (λ keyword. name_of keyword ≡ word.now) }
    {
        written_so(&ALL, word)
    }

    /// How it is written.
    fn name(self) -> &'static [u8]
        ensures { result.now ≡ name_of self }
    {
        match self {
            Keyword::Store => b"store",
            Keyword::Insert => b"insert",
            Keyword::InsertOrder => b"insert_order",
            Keyword::Erase => b"erase",
            Keyword::Load => b"load",
            Keyword::Split => b"split",
            Keyword::SetMark => b"set_mark",
            Keyword::ClearMark => b"clear_mark",
            Keyword::GetMark => b"get_mark",
            Keyword::Marked => b"marked",
            Keyword::Find => b"find",
            Keyword::FindMarked => b"find_marked",
            Keyword::Retag => b"retag",
            Keyword::Empty => b"empty",
            Keyword::Hash => b"hash",
            Keyword::Dump => b"dump",
            Keyword::New => b"new",
            Keyword::Ids => b"ids",
            Keyword::Alloc => b"alloc",
            Keyword::AllocCyclic => b"alloc_cyclic",
            Keyword::Free => b"free",
            Keyword::IsUsed => b"is_used",
            Keyword::ErrNew => b"err_new",
            Keyword::ErrSet => b"err_set",
            Keyword::ErrSample => b"err_sample",
            Keyword::ErrCheck => b"err_check",
            Keyword::ErrAdvance => b"err_advance",
        }
    }
}

/// The first of these keywords that is written so.
fn written_so(keywords: &[Keyword], word: &[u8]) -> Option<Keyword>
    ensures { MatchOption result (All (λ (k : TheKeyword). name_of k ≢ word.now) keywords.now) (λ k. name_of k ≡ word.now) }
{
    keywords
        .iter()
        .find(|keyword| keyword.name() == word)
        .copied()
}
