// Refusal 10: an HTML container with fewer than two tags.
ghost use Rattle.std.specs.Prelude.{◌≡◌, ◌<◌, ◌≤◌, ◌*◌, length};
ghost use Rattle.leaves.specs.Sheet.Records.{record_words};
ghost use Rattle.leaves.specs.Refusal.Tags.{lacks_tags, tags_from};
ghost use Rattle.leaves.specs.Refusal.TagsPlaced.{Containers, tag_under};

use crate::refusal::verdict::Malformed;
use crate::sheet::{kinds, records};

// Whether record `i` is there, is an HTML tag, and is deeper than `level`. `n` stands beside the sheet, so that no test
// has to divide the sheet's length by that of a record again.
#[tactic(auto, unfolding(crate::specs::Refusal::TagsPlaced::tag_under))]
fn tag_under(sheet: &[u32], n: usize, i: usize, level: u32) -> bool
    requires { n * record_words ≤ length sheet.now }
    ensures { result ≡ tag_under sheet.now n i level }
{
    i < n && records::kind_at(sheet, i) == kinds::HTML_TAG && level < records::level_at(sheet, i)
}

// Whether record `i` is an HTML container with fewer than two tags. Its tags can only be the next two records: no
// content stands before the second tag, and nothing stands under a tag.
fn lacks_tags(sheet: &[u32], n: usize, i: usize) -> bool
    requires { Containers sheet.now n × (i < n) }
    ensures { result ≡ lacks_tags sheet.now n i }
{
    let level = records::level_at(sheet, i);
    records::kind_at(sheet, i) == kinds::HTML_CONTAINER
        && !(tag_under(sheet, n, i + 1, level) && tag_under(sheet, n, i + 2, level))
}

// Makes test 10, and answers the first container that lacks a tag. The loop goes by number, since a refusal names its
// record.
#[tactic(auto, using(crate::proofs::refusal::TagLaws::tagging))]
pub(crate) fn judge_tags(sheet: &[u32], n: usize) -> Result<(), Malformed>
    requires { Containers sheet.now n }
    ensures { result ≡ tags_from sheet.now n n 0 }
{
    for i in 0..n {
        if lacks_tags(sheet, n, i) {
            return Err(Malformed::TagsMissing(i));
        }
    }
    Ok(())
}
