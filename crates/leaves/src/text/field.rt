// Reads and writes a field of 11 places.
ghost use Rattle.std.specs.Prelude.{◌≡◌, ◌+◌, ◌≤◌, length};
ghost use Rattle.leaves.specs.Text.Over.{over};
ghost use Rattle.leaves.specs.Text.Field.{places, field, last_place, front};
ghost use Rattle.leaves.specs.Text.Field.{past_spaces, read_digits, read_number, read_field};

use crate::text::bytes::{SPACE, is_digit};

// How many places a field has.
pub const PLACES: usize = 11;

const ZERO: u8 = b'0';

// The slice without its leading spaces.
fn past_spaces(s: &[u8]) -> &[u8]
    ensures { result.now ≡ past_spaces s.now }
{
    let at = s.iter().position(|b| *b != SPACE).unwrap_or(s.len());
    &s[at..]
}

// The number that the bytes make as digits; none where one is no digit or the number does not fit. It is made by hand:
// `parse` of the library takes a sign, which no field has.
fn read_digits(s: &[u8]) -> Option<u32>
    ensures { result ≡ read_digits 0 s.now }
{
    let mut n: u32 = 0;
    for &b in s {
        if !is_digit(b) {
            return None;
        }
        n = n.checked_mul(10)?.checked_add(u32::from(b - ZERO))?;
    }
    Some(n)
}

// The number of one or more digits; none where a 0 stands in front of other digits.
#[tactic(auto, unfolding(crate::specs::Text::Field::read_number))]
fn read_number(s: &[u8]) -> Option<u32>
    ensures { result ≡ read_number s.now }
{
    if s.is_empty() || (s[0] == ZERO && 1 < s.len()) {
        return None;
    }
    read_digits(s)
}

// The number of a field that fills the slice.
#[tactic(auto, unfolding(crate::specs::Text::Field::read_field))]
pub(crate) fn read_field(s: &[u8]) -> Option<u32>
    ensures { result ≡ read_field s.now }
{
    if s.len() != PLACES {
        return None;
    }
    read_number(past_spaces(s))
}

// The last digit of what is left of a number; a space where nothing is left.
fn last_place(n: u32) -> u8
    ensures { result ≡ last_place n }
{
    if n == 0 { SPACE } else { ZERO + (n % 10) as u8 }
}

// Fills the slice with what is left of a number, from the last place to the first.
#[tactic(auto, using(crate::proofs::text::FieldLaws::writing))]
fn put_front(cells: &mut [u8], n: u32)
    ensures { cells.new ≡ front (length cells.old) n }
{
    let mut rest = n;
    // by index: with `iter_mut().rev()` the invariant would have to speak of the cells that the iterator still lends
    for i in (0..cells.len()).rev() {
        cells[i] = last_place(rest);
        rest /= 10;
    }
}

// Writes a number into the 11 places from `at` on.
#[tactic(auto, using(crate::proofs::text::FieldLaws::field_put))]
pub(crate) fn write_field(out: &mut [u8], at: usize, n: u32)
    requires { at + places ≤ length out.old }
    ensures { out.new ≡ over out.old at (field n) }
{
    let last = at + (PLACES - 1);
    put_front(&mut out[at..last], n / 10);
    out[last] = ZERO + (n % 10) as u8;
}
