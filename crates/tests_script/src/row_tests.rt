//! Scripts that make device calls, each line beside its answer.

use crate::tests::{Outcome, check};
use std::alloc::{AllocError, Global};
use std::process::Abort;
use std::test::Fail;

/// The first lines of a script, with their answers.
const OPENED: &str = "create  file 0
    open 0  handle 0";

/// The lines after a file was created and opened. Behind each line, past two spaces or more, stands its answer.
fn check_row(rt: &impl Abort, alloc: Global, rows: &str) -> Result<(), Fail> {
    check_whole(rt, alloc, OPENED, rows)
}

/// The same after other first lines.
fn check_whole(rt: &impl Abort, alloc: Global, first: &str, rows: &str) -> Result<(), Fail> {
    let mut script = String::new(alloc);
    let mut output = String::new(alloc);
    for row in first.lines().chain(rows.lines()) {
        let (line, answer) = row.trim().split_once("  ").unwrap_or((row, "no answer"));
        push_line(&mut script, line)?;
        push_line(&mut output, answer.trim())?;
    }
    let expected = Outcome {
        output: output.as_str(),
        message: "",
        status: 0,
    };
    check(rt, alloc, script.as_bytes(), &expected)
}

fn push_line(text: &mut String, line: &str) -> Result<(), AllocError> {
    text.push_str(line)?;
    text.push('\n')
}

/// A page that is written back counts no longer as dirty.
#[test]
fn a_written_page_makes_room_for_another(rt: HostRuntime) -> Result<(), Fail> {
    let alloc = rt.alloc();
    let many = "ab".repeat(alloc, 256)?;
    let write = format!(in alloc; "write 0 0 {many}")?;
    let rows = format!(in alloc;
        "{write}         wrote 256
        write 0 256 ff  refused 10
        size 0          size 256
        flush 0         job 0
        do 0            done
        end 0           written
        write 0 256 ff  wrote 1"
    )?;
    check_row(&rt, alloc, rows.as_str())
}

/// What is written while a write is in flight stays dirty, whether this one goes well or fails.
#[test]
fn a_page_written_meanwhile_stays_dirty(rt: HostRuntime) -> Result<(), Fail> {
    let alloc = rt.alloc();
    check_row(
        &rt,
        alloc,
        "write 0 0 aa  wrote 1
        flush 0       job 0
        write 0 0 bb  wrote 1
        do 0          done
        end 0         written
        tags 0 0      D
        read 0 0 1    bytes bb
        evict         none",
    )?;
    check_row(
        &rt,
        alloc,
        "write 0 0 aa  wrote 1
        flush 0       job 0
        write 0 0 bb  wrote 1
        fail 0 5 new  failed
        end 0         failed 5
        tags 0 0      D
        read 0 0 1    bytes bb
        fail 9 0 old  refused 21
        fail 9 5 old  refused 15",
    )
}

/// A page whose write failed is dirty again, and its bytes are not lost.
#[test]
fn a_failed_write_loses_nothing(rt: HostRuntime) -> Result<(), Fail> {
    let alloc = rt.alloc();
    check_row(
        &rt,
        alloc,
        "write 0 0 aa  wrote 1
        flush 0       job 0
        fail 0 5 old  failed
        end 0         failed 5
        tags 0 0      D
        read 0 0 1    bytes aa",
    )
}

/// A page that was evicted is read in again, before a truncation cuts into it.
#[test]
fn a_truncation_cuts_a_page_on_the_device(rt: HostRuntime) -> Result<(), Fail> {
    let alloc = rt.alloc();
    check_row(
        &rt,
        alloc,
        "write 0 0 11111111111111111111111111111111  wrote 16
        flush 0                                     job 0
        do 0                                        done
        end 0                                       written
        evict                                       evicted 0 0
        truncate 0 4                                miss 0
        fill 0 0                                    job 1
        do 1                                        done
        end 1                                       filled
        truncate 0 4                                ok
        tags 0 0                                    D
        truncate 0 16                               ok
        read 0 0 16                                 bytes 11111111000000000000000000000000",
    )
}

/// A block that a write in flight may still reach is not given out, and a request whose page is cut off changes nothing.
#[test]
fn requests_outlive_the_pages_that_are_cut_off(rt: HostRuntime) -> Result<(), Fail> {
    let alloc = rt.alloc();
    check_whole(
        &rt,
        alloc,
        "config 16 48 16 1  configured
        create             file 0
        open 0             handle 0",
        "write 0 0 aa  wrote 1
        flush 0       job 0
        truncate 0 0  ok
        write 0 0 bb  refused 9
        do 0          done
        end 0         dropped
        end 0         refused 15
        write 0 0 bb  wrote 1
        read 0 0 9    bytes bb",
    )?;
    check_row(
        &rt,
        alloc,
        "write 0 0 11111111111111111111111111111111  wrote 16
        flush 0                                     job 0
        do 0                                        done
        end 0                                       written
        evict                                       evicted 0 0
        fill 0 0                                    job 1
        read 0 0 1                                  wait 0
        truncate 0 0                                ok
        write 0 0 22                                wrote 1
        do 1                                        done
        end 1                                       dropped
        read 0 0 16                                 bytes 22",
    )
}

/// A page that is cut off while its write is in flight: a sync no longer waits for the write, whose end changes nothing.
#[test]
fn a_write_outlives_its_page(rt: HostRuntime) -> Result<(), Fail> {
    let alloc = rt.alloc();
    check_row(
        &rt,
        alloc,
        "write 0 0 aa  wrote 1
        flush 0       job 0
        write 0 0 bb  wrote 1
        sync 0        sync 0
        step 0        wait 0
        evict         none
        flush 0       nothing
        truncate 0 0  ok
        step 0        clean
        write 0 0 cc  wrote 1
        end 0         refused 15
        do 0          done
        do 0          refused 15
        end 0         dropped
        read 0 0 1    bytes cc",
    )
}

/// A block that was cut is reused as soon as its request has ended, by a page of its own.
#[test]
fn a_cut_block_is_used_again(rt: HostRuntime) -> Result<(), Fail> {
    let alloc = rt.alloc();
    check_whole(
        &rt,
        alloc,
        "config 16 48 16 2  configured
        create             file 0
        open 0             handle 0",
        "write 0 0 aa  wrote 1
        flush 0       job 0
        truncate 0 0  ok
        write 0 0 bb  wrote 1
        flush 0       job 1
        do 1          done
        do 0          done
        end 0         dropped
        end 1         written
        evict         evicted 0 0
        fill 0 0      job 2
        do 2          done
        end 2         filled
        read 0 0 1    bytes bb",
    )
}

/// A page that was read twice outlives those that were not, until the lists age.
#[test]
fn pages_in_use_are_evicted_last(rt: HostRuntime) -> Result<(), Fail> {
    let alloc = rt.alloc();
    let bytes = "01".repeat(alloc, 48)?;
    let write = format!(in alloc; "write 0 0 {bytes}")?;
    let rows = format!(in alloc;
        "{write}       wrote 48
        flush 0       job 0
        do 0          done
        end 0         written
        flush 0       job 1
        do 1          done
        end 1         written
        flush 0       job 2
        do 2          done
        end 2         written
        read 0 0 1    bytes 01
        read 0 0 1    bytes 01
        age           aged 0
        evict         evicted 0 1
        evict         evicted 0 2
        age           aged 1
        evict         evicted 0 0
        evict         none
        fill 0 0      job 3
        fail 3 5 old  failed
        end 3         failed 5
        tags 0 0      absent"
    )?;
    check_row(&rt, alloc, rows.as_str())
}

/// A sync writes the pages that were dirty as it began, and waits for these writes. A page that is written meanwhile stays
/// dirty.
#[test]
fn a_sync_writes_what_was_dirty_as_it_began(rt: HostRuntime) -> Result<(), Fail> {
    let alloc = rt.alloc();
    check_row(
        &rt,
        alloc,
        "write 0 0 aa   wrote 1
        write 0 32 bb  wrote 1
        sync 0         sync 0
        write 0 16 cc  wrote 1
        step 0         job 0
        step 0         job 1
        step 0         wait 0
        do 0           done
        end 0          written
        step 0         wait 2
        do 1           done
        end 1          written
        step 0         clean
        tags 0 1       D",
    )
}

/// A page that is dirty again while its write is in flight is written once more. Where a flush took the page first, the
/// sync waits for that.
#[test]
fn a_sync_waits_for_writes_that_are_in_flight(rt: HostRuntime) -> Result<(), Fail> {
    let alloc = rt.alloc();
    check_row(
        &rt,
        alloc,
        "write 0 0 aa  wrote 1
        flush 0       job 0
        write 0 0 bb  wrote 1
        sync 0        sync 0
        tags 0 0      DWT
        step 0        wait 0
        do 0          done
        end 0         written
        tags 0 0      DT
        step 0        job 1
        tags 0 0      W
        step 0        wait 0
        do 1          done
        end 1         written
        step 0        clean",
    )?;
    check_row(
        &rt,
        alloc,
        "write 0 0 aa  wrote 1
        sync 0        sync 0
        flush 0       job 0
        step 0        wait 0
        do 0          done
        end 0         written
        step 0        clean",
    )
}

/// A handle with a sync in progress is not closed. A sync that was dropped is over.
#[test]
fn a_sync_keeps_its_handle_open(rt: HostRuntime) -> Result<(), Fail> {
    let alloc = rt.alloc();
    check_row(
        &rt,
        alloc,
        "sync 0   sync 0
        close 0  refused 12
        drop 0   dropped
        close 0  closed
        size 0   refused 4
        open 1   refused 5
        sync 0   refused 4
        drop 0   refused 15",
    )
}

/// A sync tells that a write failed while it was in progress, and is over then.
#[test]
fn a_sync_tells_of_a_failed_write(rt: HostRuntime) -> Result<(), Fail> {
    let alloc = rt.alloc();
    check_row(
        &rt,
        alloc,
        "write 0 0 aa  wrote 1
        sync 0        sync 0
        step 0        job 0
        fail 0 5 old  failed
        end 0         failed 5
        step 0        failed 5
        tags 0 0      D
        step 0        refused 15",
    )
}

/// A sync waits for no write whose page was cut off.
#[test]
fn a_sync_awaits_no_page_that_was_cut_off(rt: HostRuntime) -> Result<(), Fail> {
    let alloc = rt.alloc();
    let bytes = "ab".repeat(alloc, 32)?;
    let write = format!(in alloc; "write 0 0 {bytes}")?;
    let rows = format!(in alloc;
        "{write}       wrote 32
        sync 0        sync 0
        step 0        job 0
        truncate 0 0  ok
        step 0        clean
        do 0          done
        end 0         dropped"
    )?;
    check_row(&rt, alloc, rows.as_str())
}

/// A sync tells of a write that failed before it, once, and writes the page.
#[test]
fn fsync_tells_of_a_failed_write_once(rt: HostRuntime) -> Result<(), Fail> {
    let alloc = rt.alloc();
    check_row(
        &rt,
        alloc,
        "write 0 0 aa  wrote 1
        flush 0       job 0
        fail 0 5 old  failed
        end 0         failed 5
        tags 0 0      D
        read 0 0 1    bytes aa
        fsync 0       refused 14 5
        tags 0 0      -
        fsync 0       ok",
    )?;
    check_row(
        &rt,
        alloc,
        "write 0 0 aa  wrote 1
        flush 0       job 0
        fail 0 5 old  failed
        end 0         failed 5
        poll 0        error 5
        poll 0        none
        fsync 0       ok",
    )
}

/// Each handle is told of a failed write. One that was opened later is told where nobody was yet.
#[test]
fn each_handle_is_told_of_a_failed_write(rt: HostRuntime) -> Result<(), Fail> {
    let alloc = rt.alloc();
    check_row(
        &rt,
        alloc,
        "open 0        handle 1
        write 0 0 aa  wrote 1
        flush 0       job 0
        fail 0 5 old  failed
        end 0         failed 5
        fsync 0       refused 14 5
        fsync 1       refused 14 5
        fsync 0       ok
        open 0        handle 2
        fsync 2       ok",
    )?;
    check_row(
        &rt,
        alloc,
        "open 0        handle 1
        write 0 0 aa  wrote 1
        flush 0       job 0
        fail 0 5 old  failed
        end 0         failed 5
        open 0        handle 2
        fsync 0       refused 14 5
        fsync 1       refused 14 5
        fsync 0       ok
        fsync 2       refused 14 5",
    )
}

/// A sync from its beginning to its end leaves its pages idle.
#[test]
fn fsync_leaves_pages_idle(rt: HostRuntime) -> Result<(), Fail> {
    let alloc = rt.alloc();
    let bytes = "01".repeat(alloc, 48)?;
    let write = format!(in alloc; "write 0 0 {bytes}")?;
    let rows = format!(in alloc;
        "{write}       wrote 48
        fsync 0       ok
        read 0 0 1    bytes 01
        read 0 0 1    bytes 01
        age           aged 0
        evict         evicted 0 1
        evict         evicted 0 2
        age           aged 1
        evict         evicted 0 0
        evict         none
        fill 0 0      job 3
        fail 3 5 old  failed
        end 3         failed 5
        tags 0 0      absent"
    )?;
    check_row(&rt, alloc, rows.as_str())
}

/// A fill that fails is no failed write, and a failed write is of its own file.
#[test]
fn fsync_tells_of_failed_writes_of_its_file(rt: HostRuntime) -> Result<(), Fail> {
    let alloc = rt.alloc();
    let bytes = "01".repeat(alloc, 48)?;
    let write = format!(in alloc; "write 0 0 {bytes}")?;
    let rows = format!(in alloc;
        "{write}        wrote 48
        fsync 0        ok
        evict          evicted 0 0
        fill 0 0       job 3
        fail 3 5 old   failed
        end 3          failed 5
        poll 0         none
        create         file 1
        open 1         handle 1
        write 1 0 aa   wrote 1
        flush 1        job 4
        fail 4 28 new  failed
        end 4          failed 28
        poll 0         none
        poll 1         error 28"
    )?;
    check_row(&rt, alloc, rows.as_str())
}

/// A sync waits for no request that is in flight: it is given up, and so the handle can be closed. A handle that is not open is
/// neither synced nor polled.
#[test]
fn fsync_gives_up_where_it_would_wait(rt: HostRuntime) -> Result<(), Fail> {
    let alloc = rt.alloc();
    check_row(
        &rt,
        alloc,
        "write 0 0 aa   wrote 1
        flush 0        job 0
        write 0 16 bb  wrote 1
        fsync 0        wait 0
        tags 0 1       -
        do 0           done
        end 0          written
        fsync 0        ok
        close 0        closed
        fsync 0        refused 4
        poll 0         refused 4
        open 0         handle 0
        poll 0         none",
    )
}

/// A sync of a range starts, awaits and leaves clean the pages of the range alone. One that would begin past its end is
/// refused.
#[test]
fn a_sync_of_a_range_leaves_the_other_pages(rt: HostRuntime) -> Result<(), Fail> {
    let alloc = rt.alloc();
    check_row(
        &rt,
        alloc,
        "write 0 0 aa   wrote 1
        write 0 32 bb  wrote 1
        sync 0 2 5     sync 0
        tags 0 0       D
        tags 0 2       DT
        step 0         job 0
        step 0         wait 2
        do 0           done
        end 0          written
        step 0         clean
        tags 0 0       D
        sync 0 5 4     refused 24",
    )
}

/// An fsync of a range does not wait for a write of a page outside it; one of the whole file does.
#[test]
fn an_fsync_of_a_range_passes_other_writes(rt: HostRuntime) -> Result<(), Fail> {
    let alloc = rt.alloc();
    check_row(
        &rt,
        alloc,
        "write 0 0 aa   wrote 1
        flush 0        job 0
        write 0 32 bb  wrote 1
        fsync 0 1 4    ok
        fsync 0        wait 0
        do 0           done
        end 0          written
        fsync 0        ok
        fsync 1 4 1    refused 4
        fsync 0 4 1    refused 24",
    )
}
