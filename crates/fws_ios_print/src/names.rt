//! Names of lists that are printed.

ghost use Rattle.std.specs.Prelude.{◌≡◌};
ghost use Rattle.std.specs.List.{list_all};
ghost use Rattle.fws_num.specs.Numbers.{is_digit};
ghost use Rattle.fws_num.specs.Written.{is_plain, is_plain_byte};
ghost use Rattle.fws_ios.specs.Values.{is_number as are_digits};
ghost use Rattle.fws_ios_print.specs.Printable.{is_list_name};

/// Whether the byte is printed, and no quote.
fn is_plain_byte(c: u8) -> bool
    ensures { result ≡ is_plain_byte c }
{
    33 <= c && c <= 126 && c != b'"'
}

/// Whether all bytes are printed, and none is a quote.
fn are_plain_bytes(text: &[u8]) -> bool
    ensures { result ≡ list_all is_plain_byte text.now }
{
    text.iter().all(|c| is_plain_byte(*c))
}

/// Whether it is a word without quotes.
fn is_plain(text: &[u8]) -> bool
    ensures { result ≡ is_plain text.now }
{
    1 <= text.len() && are_plain_bytes(text)
}

/// Whether each byte is a digit.
fn have_digits(text: &[u8]) -> bool
    ensures { result ≡ list_all is_digit text.now }
{
    text.iter().all(|c| c.is_ascii_digit())
}

/// Whether it is a number.
fn are_digits(text: &[u8]) -> bool
    ensures { result ≡ are_digits text.now }
{
    match text.first() {
        Some(_) => have_digits(text),
        None => false,
    }
}

/// Whether it is a name of a list: a word of printed bytes without quotes; not of digits alone, which is a
/// number, and not that of the list of states.
pub fn is_list_name(name: &[u8]) -> bool
    ensures { result ≡ is_list_name name.now }
{
    is_plain(name) && !are_digits(name) && name != b"CONNECTIONS".as_slice()
}
