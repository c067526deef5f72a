//! Pages that leave the store, at a truncation and at an eviction, the tail of a truncated file, and the order of eviction.

ghost use Rattle.std.specs.Prelude.{◌≡◌, ◌+◌, ◌<◌, ◌≤◌, ◌||◌, ℕ, IfNone, IfSome, false, find, is_some, length, option_map, true};
ghost use Rattle.std.specs.FinMap as map;
ghost use Rattle.std.specs.FinSet as set;
ghost use Rattle.pagestore.specs.Store.{the_page, is_awaited, stored_at, stored_page, with_pages, with_lists};
ghost use Rattle.machine.specs.Changes.{cut_page};
ghost use Rattle.frames.specs.Table as table;
ghost use Rattle.frames.specs.Table.{IsSound};
ghost use Rattle.pagestore.specs.Cuts.{AreBusy, Evicts, RemovesFrom, is_idle_at, is_idle_frame};
ghost use Rattle.machine.specs.ListChanges.{numbers};
ghost use Rattle.machine.specs.PageLists.{aged, cut_off, left, active_target, place, scan_order};

use crate::kept::KeptFile;
use crate::pages::Pages;
use frames::Frames;
use pc_types::{FileId, FrameId, PageIndex, Tag};

impl Pages {
    /// Moves frames from the active list to the inactive one while it is longer, and answers how many. Only the order of
    /// eviction changes.
    pub fn age(&mut self) -> u64
        ensures moved { result + active_target self.old.lists ≡ length self.old.lists.active }
        ensures aged { self.new ≡ with_lists self.old (aged self.old.lists) }
    {
        self.frames.age()
    }

    /// The bytes of a cached page from `from` on become zeros, and it is tagged DIRTY.
    pub fn cut_tail(&mut self, file: u64, page: u64, from: usize)
        requires here { file < length self.old.files }
        requires cached { is_some (stored_page self.old file page) ≡ true }
        requires inside { from < self.old.page }
        ensures { self.new ≡ with_pages self.old file (map.insert (stored_at self.old file).pages page (cut_page self.old.page from true (the_page (stored_at self.old file).pages page))) self.old.free }
    {
        let mapping = &mut self.files[file as usize].mapping;
        let Some(mapped) = mapping.tag_page(PageIndex(page), Tag::Dirty) else {
            unreachable!()
        };
        self.dirty += u64::from(!mapped.tags.has(Tag::Dirty));
        self.frames.bytes_mut(mapped.frame)[from..].fill(0);
    }

    /// The pages of the file from this one on are absent.
    pub fn remove_from(&mut self, file: u64, page: u64)
        requires { file < length self.old.files }
        ensures { RemovesFrom self.old self.new file page }
    {
        let mut guess = page;
        while let Some(found) = self.leave_one(file, page, guess) {
            guess = found.saturating_add(1);
        }
    }

    /// Takes one page of the file away, at this page or after it, and answers which. The page at the guess is tried without a
    /// search, since the pages of a file mostly stand side by side (decision 148).
    fn leave_one(&mut self, file: u64, page: u64, guess: u64) -> Option<u64>
        requires { file < length self.old.files }
        ensures found { IfSome result (λ found. (page ≤ found) × ((is_some (stored_page self.old file found) || is_awaited self.old file found) ≡ true)) }
        ensures page { IfSome result (λ found. is_some (stored_page self.old file found) ≡ true → self.new ≡ with_lists (with_pages self.old file (map.remove (stored_at self.old file).pages found) (self.old.free + 1)) (left file found self.old.lists)) }
        ensures fill { IfSome result (λ found. is_awaited self.old file found ≡ true → self.new ≡ record self.old { filling = set.remove self.old.filling (file, found); free = self.old.free + 1; lists = left file found self.old.lists }) }
        ensures none { IfNone result ((q : ℕ) → page ≤ q → (is_some (stored_page self.old file q) || is_awaited self.old file q) ≡ false) }
        ensures unlisted { IfNone result (cut_off file page self.old.lists ≡ self.old.lists) }
        ensures same { IfNone result (self.new ≡ self.old) }
    {
        let at = page.max(guess);
        if self.leave_if_there(file, at) {
            return Some(at);
        }
        let Some(found) = self.one_from(file, page, guess) else {
            return None;
        };
        self.leave(file, found);
        Some(found)
    }

    /// A page of the file that is cached or filling, at this page or after it. It is looked for from the guess on first, since
    /// a search costs least where the page before was taken away.
    fn one_from(&self, file: u64, page: u64, guess: u64) -> Option<u64>
        requires { file < length self.now.files }
        ensures found { IfSome result (λ found. (page ≤ found) × ((is_some (stored_page self.now file found) || is_awaited self.now file found) ≡ true)) }
        ensures none { IfNone result ((q : ℕ) → page ≤ q → (is_some (stored_page self.now file q) || is_awaited self.now file q) ≡ false) }
        ensures unlisted { IfNone result (cut_off file page self.now.lists ≡ self.now.lists) }
    {
        let mapping = &self.files[file as usize].mapping;
        if let Some(found) = mapping.find_page(PageIndex(guess.max(page))) {
            return Some(found.page.0);
        }
        let found = mapping.find_page(PageIndex(page))?;
        Some(found.page.0)
    }

    /// Takes the first page away that is idle, in the order of eviction, and answers which.
    pub fn evict(&mut self) -> Option<(FileId, PageIndex)>
        ensures evicted { Evicts self.old result self.new }
        ensures first { option_map numbers result ≡ option_map place (find (is_idle_at self.old) (scan_order self.old.lists)) }
    {
        let victim = first_idle(&mut self.frames, &self.uptodate, &self.files)?;
        let Some((file, page)) = self.frames.owner(victim) else {
            unreachable!()
        };
        self.leave(file.0, page.0);
        Some((file, page))
    }
}

/// The first frame in the order of eviction whose page is idle. Those before it are set aside, so that the next search does not
/// come to them again (decision 64).
fn first_idle(frames: &mut Frames, uptodate: &[bool], files: &[KeptFile]) -> Option<FrameId>
    requires sound { IsSound frames.old }
    requires busy { AreBusy frames.old uptodate.now files.now }
    ensures first { option_map (λ frame. frame.0) result ≡ find (is_idle_frame frames.old uptodate.now files.now) (table.scan_order frames.old) }
    ensures aside { frames.new ≡ record frames.old { aside = frames.new.aside } }
    ensures sound { IsSound frames.new }
    ensures busy { AreBusy frames.new uptodate.now files.now }
{
    while let Some(frame) = frames.oldest() {
        if is_idle_frame(frames, uptodate, files, frame) {
            return Some(frame);
        }
        frames.set_aside(frame);
    }
    None
}

/// Whether the page that has the frame is cached and has no tag.
fn is_idle_frame(frames: &Frames, uptodate: &[bool], files: &[KeptFile], frame: FrameId) -> bool
    ensures { result ≡ is_idle_frame frames.now uptodate.now files.now frame.0 }
{
    let Some((file, page)) = frames.owner(frame) else {
        return false;
    };
    match files.get(file.0 as usize) {
        Some(kept) => kept.is_idle(uptodate, page.0),
        None => false,
    }
}
