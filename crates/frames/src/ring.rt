//! Rings of links by index, in one table.

ghost use Rattle.frames.specs.Rings.{SetsNext, SetsPrev, Inserts, Unlinks, next_of, prev_of, walk_back};
ghost use Rattle.frames.specs.Lists.{has, IsFirstPassing};
ghost use Rattle.std.specs.Prelude.{◌≡◌, ◌≢◌, ◌<◌, ℕ, true, length, option_map};

use crate::link::Link;
use pc_types::FrameId;

/// Puts a frame right after another place of its ring.
pub(crate) fn insert_after(links: &mut [Link], at: u32, frame: u32)
    requires at_within { at < length links.old }
    requires after_within { next_of links.old at < length links.old }
    requires within { frame < length links.old }
    requires not_at { frame ≢ at }
    requires not_after { frame ≢ next_of links.old at }
    ensures { Inserts links.old at frame links.new }
{
    let after = links[at as usize].next;
    set_next(links, frame, after);
    set_prev(links, frame, at);
    set_next(links, at, frame);
    set_prev(links, after, frame);
}

/// Takes a frame out of its ring.
pub(crate) fn unlink(links: &mut [Link], frame: u32)
    requires within { frame < length links.old }
    requires before_within { prev_of links.old frame < length links.old }
    requires after_within { next_of links.old frame < length links.old }
    ensures { Unlinks links.old frame links.new }
{
    let Link { prev, next } = links[frame as usize];
    set_next(links, prev, next);
    set_prev(links, next, prev);
}

fn set_next(links: &mut [Link], at: u32, to: u32)
    requires { at < length links.old }
    ensures { SetsNext links.old at to links.new }
{
    let link = &mut links[at as usize];
    link.next = to;
}

fn set_prev(links: &mut [Link], at: u32, to: u32)
    requires { at < length links.old }
    ensures { SetsPrev links.old at to links.new }
{
    let link = &mut links[at as usize];
    link.prev = to;
}

/// The first frame that passes the test, from a head backwards.
pub(crate) fn find_back<F: Fn(FrameId) -> bool>(
    links: &[Link],
    head: u32,
    len: usize,
    test: &F,
) -> Option<FrameId>
    requires head { head < length links.now }
    requires within { (f : ℕ) → has f (walk_back links.now len (prev_of links.now head)) ≡ true → f < length links.now }
    requires callable { (f : ℕ) → has f (walk_back links.now len (prev_of links.now head)) ≡ true → F.pre test.now (record { 0 = f }) }
    ensures { IsFirstPassing (λ f answer. F.post test.now (record { 0 = f }) answer) (walk_back links.now len (prev_of links.now head)) (option_map (λ frame. frame.0) result) }
{
    let mut at = prev_link(links, head);
    for passed in 0..len {
        let frame = FrameId(at);
        if test(frame) {
            return Some(frame);
        }
        at = prev_link(links, at);
    }
    None
}

fn prev_link(links: &[Link], at: u32) -> u32
    requires { at < length links.now }
    ensures { result ≡ prev_of links.now at }
{
    links[at as usize].prev
}
