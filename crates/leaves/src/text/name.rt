// Names of directives and attributes, and identifiers.
ghost use Rattle.std.specs.Prelude.{◌≡◌};
ghost use Rattle.leaves.specs.Text.Name.{
  begins_run,
  continues_run,
  is_directive_name,
  begins_attribute,
  continues_attribute,
  is_attribute_name,
  is_trimmed_byte,
  is_blank_identifier,
};
ghost use Rattle.leaves.specs.Text.NameScans.{may_stand};

use crate::text::bytes;
use crate::text::bytes::{COLON, HYPHEN, UNDERSCORE};

// The tests of a run's first byte and of the others are two, as they are in the definition.
fn begins_run(b: u8) -> bool
    ensures { result ≡ begins_run b }
{
    bytes::is_letter(b)
}

fn continues_run(b: u8) -> bool
    ensures { result ≡ continues_run b }
{
    bytes::is_letter(b)
}

// Whether the byte can stand there in a directive's name. `start`: a run has to start at it; else one has begun.
#[tactic(auto, unfolding(crate::specs::Text::NameScans::may_stand))]
fn may_stand(start: bool, b: u8) -> bool
    ensures { result ≡ may_stand start b }
{
    if b == HYPHEN {
        !start
    } else if start {
        begins_run(b)
    } else {
        continues_run(b)
    }
}

// Whether the name is runs joined by single hyphens. `start`: a run has to start at the byte being read. Not by `split`
// at the hyphens: that looks for the next hyphen before it looks at the run, and so reads a long name whose first byte
// is wrong to its end.
pub fn is_directive_name(s: &[u8]) -> bool
    ensures { result ≡ is_directive_name s.now }
{
    let mut start = true;
    for &b in s {
        if !may_stand(start, b) {
            return false;
        }
        start = b == HYPHEN;
    }
    !start
}

fn begins_attribute(b: u8) -> bool
    ensures { result ≡ begins_attribute b }
{
    bytes::is_letter(b) || matches!(b, UNDERSCORE | HYPHEN)
}

fn continues_attribute(b: u8) -> bool
    ensures { result ≡ continues_attribute b }
{
    bytes::is_letter(b) || bytes::is_digit(b) || matches!(b, UNDERSCORE | HYPHEN | COLON)
}

pub fn is_attribute_name(s: &[u8]) -> bool
    ensures { result ≡ is_attribute_name s.now }
{
    match s {
        [] => false,
        [first, rest @ ..] => begins_attribute(*first)
            && rest.iter().all(|b| continues_attribute(*b)),
    }
}

fn is_trimmed_byte(b: u8) -> bool
    ensures { result ≡ is_trimmed_byte b }
{
    bytes::is_blank_byte(b) || bytes::is_line_ending_byte(b)
}

// Whether nothing is left of an identifier once spaces, tabs, LFs and CRs are trimmed off.
pub fn is_blank_identifier(s: &[u8]) -> bool
    ensures { result ≡ is_blank_identifier s.now }
{
    s.iter().all(|b| is_trimmed_byte(*b))
}
