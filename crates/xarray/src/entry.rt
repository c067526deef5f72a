//! What the calls of an array speak of.
ghost use Rattle.std.specs.Prelude.{◌≡◌};
ghost use Rattle.xarray.specs.MarkedArray.{mark_number, marks_after};

/// A mark of an entry.
#[derive(Clone, Copy, PartialEq, Eq, Debug)]
pub enum Mark {
    M0,
    M1,
    M2,
}

impl Mark {
    #[inline]
    pub(crate) fn number(self) -> usize
        ensures { result ≡ mark_number self }
    {
        match self {
            Mark::M0 => 0,
            Mark::M1 => 1,
            Mark::M2 => 2,
        }
    }
}

/// The marks of an entry: whether it has M0, M1 and M2.
#[derive(Clone, Copy, PartialEq, Eq, Debug)]
pub struct Marks {
    pub m0: bool,
    pub m1: bool,
    pub m2: bool,
}

impl Marks {
    /// The marks without those of `clear`, and with those of `set`.
    #[inline]
    pub fn after(self, clear: Marks, set: Marks) -> Marks
        ensures { result ≡ marks_after clear set self }
    {
        Marks {
            m0: !clear.m0 && self.m0 || set.m0,
            m1: !clear.m1 && self.m1 || set.m1,
            m2: !clear.m2 && self.m2 || set.m2,
        }
    }
}

/// The value of an entry, with its marks.
#[derive(Clone, Copy, PartialEq, Eq, Debug)]
pub struct Marked {
    pub value: u64,
    pub marks: Marks,
}

/// An entry as a search finds it: its range is the `2 ^ order` indexes from `first` on.
#[derive(Clone, Copy, PartialEq, Eq, Debug)]
pub struct Found {
    pub first: u64,
    pub order: u32,
    pub value: u64,
}
