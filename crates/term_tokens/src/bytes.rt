// Kinds of bytes.
ghost use Rattle.std.specs.Prelude.{◌≡◌, ◌≤◌};
ghost use Rattle.std.specs.Char.{is_digit};
ghost use Rattle.std.specs.Str.{is_utf8};
ghost use Rattle.term_tokens.specs.Names.{is_letter, is_name_start, is_name_byte, is_name_mark, is_blank};
ghost use Rattle.term_tokens.specs.Strings.{opens_interpolation};

/// What a name may begin with: a letter or `_`.
pub fn is_name_start(byte: u8) -> bool
    ensures { result ≡ is_name_start byte }
{
    is_letter(byte) || byte == b'_'
}

/// What a name may go on with: also a digit or `@`.
pub fn is_name_byte(byte: u8) -> bool
    ensures { result ≡ is_name_byte byte }
{
    is_name_start(byte) || (b'0' <= byte && byte <= b'9') || byte == b'@'
}

/// What may end a name: `?` or `!`.
pub fn is_name_mark(byte: u8) -> bool
    ensures { result ≡ is_name_mark byte }
{
    byte == b'?' || byte == b'!'
}

/// A space, a tab, a carriage return or a line feed.
pub fn is_blank(byte: u8) -> bool
    ensures { result ≡ is_blank byte }
{
    byte == b' ' || byte == b'\t' || byte == b'\r' || byte == b'\n'
}

/// A digit of the base, of upper or lower case.
pub fn is_digit(byte: u8, base: u32) -> bool
    requires least { 2 ≤ base }
    requires most { base ≤ 36 }
    ensures { result ≡ is_digit byte base }
{
    char::from(byte).is_digit(base)
}

/// `#` before `{`: whether the byte and the text after it begin an interpolation.
pub fn opens_interpolation(byte: u8, text: &[u8]) -> bool
    ensures { result ≡ opens_interpolation byte text.now }
{
    match text {
        [next, ..] => byte == b'#' && *next == b'{',
        [] => false,
    }
}

/// Whether the bytes are UTF-8.
pub fn is_utf8(bytes: &[u8]) -> bool
    ensures { result ≡ is_utf8 bytes.now }
{
    str::from_utf8(bytes).is_ok()
}

fn is_letter(byte: u8) -> bool
    ensures { result ≡ is_letter byte }
{
    (b'A' <= byte && byte <= b'Z') || (b'a' <= byte && byte <= b'z')
}
