//! Texts that are compared.

ghost use Rattle.std.specs.Prelude.{◌≡◌};
ghost use Rattle.std.specs.List.{list_any};
ghost use Rattle.std.specs.Str.{bytes_eq};

use fws_num::Text;

/// Whether the bytes are these.
pub fn is(text: &[u8], other: &[u8]) -> bool
    ensures { result ≡ bytes_eq text.now other.now }
{
    text == other
}

/// Whether the text is one of the names.
pub fn is_one_of(names: &[&[u8]], text: &[u8]) -> bool
    ensures { result ≡ list_any (λ name. bytes_eq text.now name.now) names.now }
{
    names.iter().any(|name| is(text, name))
}

/// Whether the text is among those given.
pub fn is_given(given: &[Text], text: &[u8]) -> bool
    ensures { result ≡ list_any (bytes_eq text.now) given.now }
{
    given.iter().any(|other| is(text, other.as_slice()))
}
