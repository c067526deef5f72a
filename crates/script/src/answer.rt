//! What a line of a script answers, as it is printed.

ghost use Rattle.std.specs.Prelude.{◌≡◌, ◌++◌, codes};
ghost use Rattle.pc_types.specs.TagBits.{tag_set};
ghost use Rattle.script.specs.Answers.{answer_of, letters_of, polled_text, refusal_text, tags_text, hex_text};
ghost use Rattle.textline.specs.Prints.{Writes, ended};

use cachecore::{PageTags, Reply};
use pc_types::{ErrCode, Refusal, Tag, Tags};
use std::alloc::Global;
use std::io::Write;
use textline::{Printer, Stop, print_line};

/// Prints what an event of the cache replied.
pub fn print_reply<W: Write>(alloc: Global, out: &mut Printer<W>, reply: &Reply) -> Result<(), Stop>
    ensures { Writes result (ended (answer_of reply.now)) (W.contents out.old.writer) (W.contents out.new.writer) }
{
    match reply {
        Reply::Refused(refusal) => print_refusal(out, *refusal),
        Reply::File(file) => print_line(out, format_args!("file {}", file.0)),
        Reply::Handle(handle) => print_line(out, format_args!("handle {}", handle.0)),
        Reply::Closed => print_line(out, "closed"),
        Reply::Size(size) => print_line(out, format_args!("size {size}")),
        Reply::Bytes(bytes) => print_bytes(alloc, out, bytes.as_slice()),
        Reply::Wait(page) => print_line(out, format_args!("wait {}", page.0)),
        Reply::Miss(page) => print_line(out, format_args!("miss {}", page.0)),
        Reply::Wrote(count, _) => print_line(out, format_args!("wrote {count}")),
        Reply::Done => print_line(out, "ok"),
        Reply::Gone => print_line(out, "gone"),
        Reply::Present => print_line(out, "present"),
        Reply::Filled => print_line(out, "filled"),
        Reply::Job(serial) => print_line(out, format_args!("job {}", serial.0)),
        Reply::Dropped => print_line(out, "dropped"),
        Reply::Failed(code) => print_line(out, format_args!("failed {}", code.code())),
        Reply::Nothing => print_line(out, "nothing"),
        Reply::Written => print_line(out, "written"),
        Reply::Evicted(file, page) => print_line(
            out,
            format_args!("evicted {} {}", file.0, page.0),
        ),
        Reply::NoneIdle => print_line(out, "none"),
        Reply::Aged(count) => print_line(out, format_args!("aged {count}")),
        Reply::Sync(sync) => print_line(out, format_args!("sync {}", sync.0)),
        Reply::Clean => print_line(out, "clean"),
    }
}

/// Prints a refusal by its number.
pub fn print_refusal<W: Write>(out: &mut Printer<W>, refusal: Refusal) -> Result<(), Stop>
    ensures { Writes result (ended (refusal_text refusal)) (W.contents out.old.writer) (W.contents out.new.writer) }
{
    match refusal {
        Refusal::Io(code) => print_line(out, format_args!("refused 14 {}", code.code())),
        _ => print_line(out, format_args!("refused {}", refusal.number())),
    }
}

/// Prints bytes in lower case, or `-` where there are none.
fn print_bytes<W: Write>(alloc: Global, out: &mut Printer<W>, bytes: &[u8]) -> Result<(), Stop>
    ensures { Writes result (ended (codes "bytes " ++ hex_text bytes.now)) (W.contents out.old.writer) (W.contents out.new.writer) }
{
    if bytes.is_empty() {
        return print_line(out, "bytes -");
    }
    let digits = hex::encode(alloc, bytes)?;
    print_line(out, format_args!("bytes {}", digits.as_str()))
}

/// Prints what a poll tells.
pub fn print_polled<W: Write>(
    out: &mut Printer<W>,
    polled: Result<Option<ErrCode>, Refusal>,
) -> Result<(), Stop>
    ensures { Writes result (ended (polled_text polled)) (W.contents out.old.writer) (W.contents out.new.writer) }
{
    match polled {
        Ok(told) => match told {
            Some(code) => print_line(out, format_args!("error {}", code.code())),
            None => print_line(out, "none"),
        },
        Err(refusal) => print_refusal(out, refusal),
    }
}

/// Prints what is known of a page.
pub fn print_tags<W: Write>(out: &mut Printer<W>, tags: PageTags) -> Result<(), Stop>
    ensures { Writes result (ended (tags_text tags)) (W.contents out.old.writer) (W.contents out.new.writer) }
{
    match tags {
        PageTags::Absent => print_line(out, "absent"),
        PageTags::Filling => print_line(out, "filling"),
        PageTags::Cached(tags) => print_line(out, letters(tags)),
    }
}

/// The letters of the tags that are set: dirty, under writeback, to be written by a sync.
fn letters(tags: Tags) -> &'static str
    ensures { result.now ≡ letters_of (tag_set tags) }
{
    match (
        tags.has(Tag::Dirty),
        tags.has(Tag::Writeback),
        tags.has(Tag::Towrite),
    ) {
        (false, false, false) => "-",
        (true, false, false) => "D",
        (false, true, false) => "W",
        (true, true, false) => "DW",
        (false, false, true) => "T",
        (true, false, true) => "DT",
        (false, true, true) => "WT",
        (true, true, true) => "DWT",
    }
}
