//! The names of the commands.

ghost use Rattle.std.specs.Prelude.{◌≡◌, ◌≢◌, MatchOption, All};
ghost use Rattle.script.specs.Keywords.{name_of};
ghost use Rattle.script.specs.declared.keyword.Keyword.{Keyword as TheKeyword};

/// The first word of a command.
#[derive(Clone, Copy, PartialEq, Eq, Debug)]
pub enum Keyword {
    Config,
    Create,
    Open,
    Close,
    Size,
    Read,
    Write,
    Append,
    Truncate,
    Fill,
    Flush,
    Do,
    Fail,
    End,
    Sync,
    Step,
    Drop,
    Fsync,
    Poll,
    Evict,
    Age,
    Tags,
}

/// All of them.
const ALL: [Keyword; 22] = [
    Keyword::Config,
    Keyword::Create,
    Keyword::Open,
    Keyword::Close,
    Keyword::Size,
    Keyword::Read,
    Keyword::Write,
    Keyword::Append,
    Keyword::Truncate,
    Keyword::Fill,
    Keyword::Flush,
    Keyword::Do,
    Keyword::Fail,
    Keyword::End,
    Keyword::Sync,
    Keyword::Step,
    Keyword::Drop,
    Keyword::Fsync,
    Keyword::Poll,
    Keyword::Evict,
    Keyword::Age,
    Keyword::Tags,
];

impl Keyword {
    /// The keyword that is written so, where there is one.
    pub fn of(word: &[u8]) -> Option<Keyword>
        ensures { MatchOption result ((keyword : TheKeyword) → name_of keyword ≢ word.now) (λ keyword. name_of keyword ≡ word.now) }
    {
        written_so(&ALL, word)
    }

    /// How it is written.
    fn name(self) -> &'static [u8]
        ensures { result.now ≡ name_of self }
    {
        match self {
            Keyword::Config => b"config",
            Keyword::Create => b"create",
            Keyword::Open => b"open",
            Keyword::Close => b"close",
            Keyword::Size => b"size",
            Keyword::Read => b"read",
            Keyword::Write => b"write",
            Keyword::Append => b"append",
            Keyword::Truncate => b"truncate",
            Keyword::Fill => b"fill",
            Keyword::Flush => b"flush",
            Keyword::Do => b"do",
            Keyword::Fail => b"fail",
            Keyword::End => b"end",
            Keyword::Sync => b"sync",
            Keyword::Step => b"step",
            Keyword::Drop => b"drop",
            Keyword::Fsync => b"fsync",
            Keyword::Poll => b"poll",
            Keyword::Evict => b"evict",
            Keyword::Age => b"age",
            Keyword::Tags => b"tags",
        }
    }
}

/// The first of these keywords that is written so.
fn written_so(keywords: &[Keyword], word: &[u8]) -> Option<Keyword>
    ensures { MatchOption result (All (λ (k : TheKeyword). name_of k ≢ word.now) keywords.now) (λ k. name_of k ≡ word.now) }
{
    keywords
        .iter()
        .find(|keyword| keyword.name() == word)
        .copied()
}
