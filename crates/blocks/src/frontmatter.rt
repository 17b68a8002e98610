// What frontmatter reports by its own record.
ghost use Rattle.std.specs.Prelude.{◌≡◌};
ghost use Rattle.leaves.specs.Report.Listed.{path_of, Adds};
ghost use Rattle.blocks.specs.Frontmatter.{frontmatter_kind, validate_frontmatter};

use leaves::report::entries::Report;
use leaves::report::rules::Rule;
use leaves::sheet::records::Rec;
use leaves::sheet::texts::text_of;
use leaves::text::fence::{FrontmatterKind, holds_fence_line};

// Every A but 1 is YAML, so this cannot fail and is no `TryFrom`. It is no `From<u32>` either: in other records A means
// something else.
#[tactic(auto, unfolding(crate::specs::Frontmatter::frontmatter_kind))]
fn frontmatter_kind(a: u32) -> FrontmatterKind
    ensures { result ≡ frontmatter_kind a }
{
    if a == 1 {
        return FrontmatterKind::Toml;
    }
    FrontmatterKind::Yaml
}

// Rule 28: frontmatter stands at level 1. Rule 29: no line of it is its own fence.
pub(crate) fn validate_frontmatter(bytes: &[u8], report: &mut Report, r: Rec)
    ensures { Adds report.old report.new
        (validate_frontmatter bytes.now (path_of report.old) r.span r.level r.a r.first) }
{
    report.list_if(1 < r.level, Rule::FrontmatterInside, r.span);
    let fenced = holds_fence_line(text_of(bytes, r.first), frontmatter_kind(r.a));
    report.list_if(fenced, Rule::FenceInFrontmatter, r.span);
}
