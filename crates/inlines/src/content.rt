// What the rules ask of the inlines of one container, gathered in one pass.
ghost use Rattle.std.specs.Prelude.{◌≡◌};
ghost use Rattle.leaves.specs.Sheet.Trees.{trees};
ghost use Rattle.leaves.specs.Report.Listed.{path_of, Adds};
ghost use Rattle.inlines.specs.Content.{final_break};
ghost use Rattle.inlines.specs.ContentGathered.{no_content, with_inline, content_of, break_entry};

use crate::values;
use leaves::report::entries::Report;
use leaves::report::rules::Rule;
use leaves::sheet::records::{Rec, Span};
use leaves::sheet::trees::Records;
use leaves::sheet::{classes, empty, kinds};

// What is gathered of the inlines of one container.
#[derive(Clone, Copy)]
pub(crate) struct Content {
    // there is an inline
    pub some: bool,
    // all of them are empty texts
    pub empty: bool,
    // the first that is not an empty text starts with white space, and the last such ends with it
    pub starts: bool,
    pub ends: bool,
    // there is exactly one, and it is written with the container's delimiter
    pub joined: bool,
    // the span of the last, where that is a line break
    pub last_break: Option<Span>,
}

fn no_content() -> Content
    ensures { result ≡ no_content }
{
    Content {
        some: false,
        empty: true,
        starts: false,
        ends: false,
        joined: false,
        last_break: None,
    }
}

// `c` with record `r` added. A record that is not an inline changes nothing.
#[tactic(auto, unfolding(crate::specs::ContentGathered::with_inline))]
fn with_inline(bytes: &[u8], outer: u32, a: u32, c: Content, r: Rec) -> Content
    ensures { result ≡ with_inline bytes.now outer a c r }
{
    if !kinds::is_inline(r.kind) {
        return c;
    }
    let empty = empty::is_empty_text(r);
    Content {
        some: true,
        empty: c.empty && empty,
        starts: c.starts || (c.empty && !empty && values::starts_white(bytes, r)),
        ends: if empty {
            c.ends
        } else {
            values::ends_white(bytes, r)
        },
        joined: !c.some && classes::is_joined(outer, a, r.kind, r.a),
        last_break: if r.kind == kinds::LINE_BREAK {
            Some(r.span)
        } else {
            None
        },
    }
}

// Gathers the trees that are next and deeper than `level`: the children of a container of the kind `outer` whose A is
// `a`.
pub(crate) fn gather(records: &Records, level: u32, outer: u32, a: u32) -> Content
    ensures { result ≡ content_of records.now.bytes.now outer a (trees records.now level) }
{
    records.roots(level).fold(
        no_content(),
        |c, t| with_inline(records.bytes, outer, a, c, t.root),
    )
}

// Rule 30, by what was gathered: a hard break is not the last inline.
#[tactic(auto, unfolding(crate::specs::ContentGathered::break_entry))]
pub(crate) fn validate_last_break(report: &mut Report, last_break: Option<Span>)
    ensures { Adds report.old report.new (break_entry (path_of report.old) last_break) }
{
    if let Some(span) = last_break {
        report.list_if(true, Rule::FinalHardBreak, span);
    }
}

// Rule 30: a hard break is not the last inline. Nothing calls this for a link, image, link or image reference, inline
// footnote or text directive.
pub(crate) fn final_break(records: &Records, report: &mut Report, level: u32)
    ensures { Adds report.old report.new (final_break (path_of report.old) (trees records.now level)) }
{
    // no container is known here: 0 stands for its kind and its A, since `joined` is not asked
    let c = gather(records, level, kinds::NO_KIND, 0);
    validate_last_break(report, c.last_break);
}
