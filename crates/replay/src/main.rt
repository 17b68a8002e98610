// Replays the stored answers in data/, which rust/vectors writes, and counts those that differ. The answers for the
// text leaves and all lists of entries are the Rust's; refusals, settings and what is printed for films come from plain
// readings of document 01.
#![tactic(auto)]

mod bytes;
mod checks;
mod file;
mod films;
mod format;
mod front;
mod line;
mod lists;
mod long;
mod sheets;
mod tally;
mod texts;
mod values;
mod words;

ghost use Rattle.std.specs.Prelude.{◌≡◌, IfOk};
ghost use Rattle.replay.specs.File.{AddsFile};
ghost use Rattle.replay.specs.Long.{unfilled, zeros, long_replayed};

use crate::checks::Checks;
use crate::films::Films;
use crate::format::Format;
use crate::line::write_line;
use crate::lists::Lists;
use crate::long::Calls;
use crate::sheets::Sheets;
use crate::tally::Tally;
use crate::texts::Texts;
use crate::values::{Pairs, Parts, Punctuation};
use std::alloc::AllocError;
use std::io;
use std::rt::Files;

// Replays a file, writes its line, and adds what was found to the total.
fn replay<R: Files + Print + Eprint, F: Format>(
    rt: &R,
    name: &str,
    format: &F,
    total: Tally,
) -> Tally
    ensures { AddsFile (F.replayed format.now) total result }
{
    let found = file::replay(file::open(rt, name), format);
    file::close(rt, name, found, total)
}

// Replays a file of calls with the long sheet, which is filled first, and the long text.
fn replay_calls<R: Files + Print + Eprint>(
    rt: &R,
    name: &str,
    sheet: &mut [u32],
    text: &[u8],
    total: Tally,
) -> Tally
    requires sheet { sheet.old ≡ unfilled }
    requires text { text.now ≡ zeros }
    ensures { AddsFile long_replayed total result }
{
    long::fill_with_breaks(sheet);
    replay(rt, name, &Calls { sheet, text }, total)
}

// Replays a file of calls. The long sheet and the long text are on the heap.
fn replay_long<R: Files + Print + Eprint + AllocGlobal>(
    rt: &R,
    name: &str,
    total: Tally,
) -> Result<Tally, AllocError>
    ensures { IfOk result (λ t. AddsFile long_replayed total t) }
{
    let mut sheet = long::sheet(rt.alloc())?;
    let text = long::text(rt.alloc())?;
    Ok(replay_calls(rt, name, &mut sheet, &text, total))
}

// Replays the files whose records are short. They stand in no table, since a format is a type: with `&dyn Format` in
// its place `replay_calls` was not proved.
fn replay_short_files<R: Files + Print + Eprint>(rt: &R) -> Tally {
    let mut total = Tally::empty();
    for name in ["utf8", "white", "lines", "names", "tags", "pipes"] {
        total = replay(rt, name, &Texts, total);
    }
    total = replay(rt, "pairs", &Pairs, total);
    total = replay(rt, "punctuation", &Punctuation, total);
    total = replay(rt, "parts", &Parts, total);
    total = replay(rt, "sheets", &Sheets, total);
    total = replay(rt, "inlines", &Lists, total);
    total = replay(rt, "checks", &Checks, total);
    replay(rt, "films", &Films, total)
}

fn main(rt: HostRuntime) -> io::Result<()> {
    println!(rt; "file records compared differ")?;
    let mut total = replay_short_files(&rt);
    total = replay_long(&rt, "long_checks", total)?;
    total = replay_long(&rt, "long_sets", total)?;
    write_line(&rt, "all", total)
}
