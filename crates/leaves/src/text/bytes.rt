// Bytes by name, and classes of bytes.
ghost use Rattle.std.specs.Prelude.{◌≡◌};
ghost use Rattle.leaves.specs.Text.Bytes.{is_blank_byte, is_line_ending_byte, is_letter, is_digit};

pub(crate) const TAB: u8 = b'\t';

pub(crate) const LF: u8 = b'\n';

pub(crate) const CR: u8 = b'\r';

pub(crate) const SPACE: u8 = b' ';

pub(crate) const DOLLAR: u8 = b'$';

pub(crate) const PLUS: u8 = b'+';

pub(crate) const HYPHEN: u8 = b'-';

pub(crate) const SLASH: u8 = b'/';

pub(crate) const COLON: u8 = b':';

pub(crate) const BACKSLASH: u8 = b'\\';

pub(crate) const UNDERSCORE: u8 = b'_';

pub(crate) const BACKTICK: u8 = b'`';

pub(crate) const PIPE: u8 = b'|';

pub(crate) fn is_blank_byte(b: u8) -> bool
    ensures { result ≡ is_blank_byte b }
{
    matches!(b, SPACE | TAB)
}

pub(crate) fn is_line_ending_byte(b: u8) -> bool
    ensures { result ≡ is_line_ending_byte b }
{
    matches!(b, LF | CR)
}

pub(crate) fn is_letter(b: u8) -> bool
    ensures { result ≡ is_letter b }
{
    b.is_ascii_alphabetic()
}

pub(crate) fn is_digit(b: u8) -> bool
    ensures { result ≡ is_digit b }
{
    b.is_ascii_digit()
}
