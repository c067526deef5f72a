//! The keys of the pages in the array: the file's number times 2^bits plus the page's. The array's tree is as high as its
//! greatest key, so the width `bits` is the least that has room for each page for which a block was ever asked.
ghost use Rattle.std.specs.Prelude.{◌≡◌, ◌+◌, ◌*◌, ◌^◌, ◌<◌, ◌≤◌, MatchBool};
ghost use Rattle.blockmap.specs.Keys.{IsLeastWidth, IsWidth, place_of};

/// The bits of a key by which one level of the array's tree chooses a slot.
const LEVEL_BITS: u32 = 6;

/// The bits of the least width: files of 262,144 pages, and four levels with the file's number. A narrower one would spare small files a
/// level, and cost each file that grows past it a move of all entries.
const LEAST_BITS: u32 = 3 * LEVEL_BITS;

/// How many bits of a key are the page's.
#[derive(Clone, Copy)]
pub(crate) struct Width {
    bits: u32,
    ghost is: { IsWidth bits },
}

impl Width {
    pub(crate) fn least() -> Width
        ensures { result.bits ≡ 18 }
    {
        Width { bits: LEAST_BITS }
    }

    /// The least width that has room for a page.
    pub(crate) fn for_page(page: u64) -> Width
        requires { page < 2 ^ 36 }
        ensures { IsLeastWidth result.bits page }
    {
        let mut bits = LEAST_BITS;
        while page >> bits != 0 {
            bits += LEVEL_BITS;
        }
        Width { bits }
    }

    /// Whether a page has a key.
    pub(crate) fn has_key(self, page: u64) -> bool
        ensures { MatchBool result (page < 2 ^ self.bits) (2 ^ self.bits ≤ page) }
    {
        page < self.pages()
    }

    /// How many pages of a file have keys.
    pub(crate) fn pages(self) -> u64
        ensures { result ≡ 2 ^ self.bits }
    {
        1 << self.bits
    }

    pub(crate) fn key(self, file: u64, page: u64) -> u64
        requires file { file < 64 }
        requires page { page < 2 ^ self.bits }
        ensures { result ≡ file * 2 ^ self.bits + page }
    {
        file * self.pages() + page
    }

    /// The file and the page of a key.
    pub(crate) fn place(self, key: u64) -> (u64, u64)
        ensures { result ≡ place_of self.bits key }
    {
        (key / self.pages(), key % self.pages())
    }
}
