//! Eviction: a page that nobody waits for gives its frame back.

ghost use Rattle.std.specs.Prelude.{◌≡◌, ◌+◌, find, length, option_map};
ghost use Rattle.machine.specs.ListChanges.{is_idle_in, lists_after, numbers};
ghost use Rattle.machine.specs.PageLists.{aged, active_target, place, scan_order};
ghost use Rattle.machine.specs.Step.{Step};
ghost use Rattle.cachecore.specs.Replies.{evicted};
ghost use Rattle.machine.specs.declared.event.Reply.TheVariants.{Aged};

use crate::cache::CacheCore;
use machine::Event;
use pc_types::{FileId, PageIndex};

impl CacheCore {
    /// Takes a page away that has no tag, the first in the order of eviction, and answers which.
    pub fn evict(&mut self) -> Option<(FileId, PageIndex)>
        ensures step { Step self.old.state Event.Evict (evicted result) self.new.state }
        ensures first { option_map numbers result ≡ option_map place (find (is_idle_in self.old.state) (scan_order self.old.lists)) }
        ensures lists { self.new.lists ≡ lists_after self.old.state Event.Evict (evicted result) self.old.lists }
    {
        self.pages.evict()
    }

    /// Moves pages from the active list to the inactive one while it is longer, and answers how many.
    pub fn age(&mut self) -> u64
        ensures step { Step self.old.state Event.Age (Aged result) self.new.state }
        ensures count { result + active_target self.old.lists ≡ length self.old.lists.active }
        ensures lists { self.new.lists ≡ aged self.old.lists }
    {
        self.pages.age()
    }
}
