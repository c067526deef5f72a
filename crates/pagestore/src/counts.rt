//! Counts of pages that end as soon as they tell enough (decision 167).

ghost use Rattle.std.specs.Prelude.{◌≡◌, ℕ, ◌-◌, ◌<◌, ◌≤◌, Bool, count_by, nat_lt};
ghost use Rattle.std.specs.List.{range_with_len};
ghost use Rattle.pagestore.specs.Counts.{Tells};

/// Whether more than `room` of the pages from `first` up to `end` pass the test. It tests them in their order, until so many have passed,
/// or until as many may still pass as there are left. So where there is room for all of them it tests none.
#[inline]
pub fn has_more<F: Fn(u64) -> bool>(first: u64, end: u64, room: u64, test: F) -> bool
    requires order { first ≤ end }
    requires callable { (page : ℕ) → first ≤ page → page < end → F.pre test page }
    ensures { (passes : ℕ → Bool) → Tells (λ page answer. F.post test page answer) first end passes → result ≡ nat_lt room (count_by passes (range_with_len first (end - first))) }
{
    let mut spare = room;
    let mut page = first;
    while spare < end - page {
        if test(page) {
            if spare == 0 {
                return true;
            }
            spare -= 1;
        }
        page += 1;
    }
    false
}

/// How many more than `room` of the pages from `first` up to `end` pass the test. It tests each once at most, in their order, until as many
/// may still pass as there are left.
#[inline]
pub(crate) fn count_over<F: Fn(u64) -> bool>(first: u64, end: u64, room: u64, test: F) -> u64
    requires order { first ≤ end }
    requires callable { (page : ℕ) → first ≤ page → page < end → F.pre test page }
    ensures { (passes : ℕ → Bool) → Tells (λ page answer. F.post test page answer) first end passes → result ≡ count_by passes (range_with_len first (end - first)) - room }
{
    let mut spare = room;
    let mut over = 0;
    let mut page = first;
    while spare < end - page {
        if test(page) {
            if spare == 0 {
                over += 1;
            } else {
                spare -= 1;
            }
        }
        page += 1;
    }
    over
}
