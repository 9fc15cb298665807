ghost use Rattle.std.specs.Prelude.{◌≡◌};
ghost use Rattle.std.specs.List.{list_all};
ghost use Rattle.sp_model.specs.Names.{is_plain_byte, is_name, is_small_letter, is_word_byte, is_word, is_connection_name, has_name};

use sp_value::Text;

fn is_plain_byte(byte: u8) -> bool
    ensures { result ≡ is_plain_byte byte }
{
    byte >= 32 && (byte <= 126 || byte >= 128)
}

fn are_plain(bytes: &[u8]) -> bool
    ensures { result ≡ list_all is_plain_byte bytes.now }
{
    bytes.iter().all(|b| is_plain_byte(*b))
}

/// Whether a text may name a table, a column, a function, a plugin or a limiter: 1 to 63 bytes, none of them a control character.
pub fn is_name(name: &str) -> bool
    ensures { result ≡ is_name name.now }
{
    !name.is_empty() && name.len() <= 63 && are_plain(name.as_bytes())
}

fn is_small_letter(byte: u8) -> bool
    ensures { result ≡ is_small_letter byte }
{
    byte >= 97 && byte <= 122
}

fn is_word_byte(byte: u8) -> bool
    ensures { result ≡ is_word_byte byte }
{
    is_small_letter(byte) || (byte >= 48 && byte <= 57) || byte == 95
}

fn are_word_bytes(bytes: &[u8]) -> bool
    ensures { result ≡ list_all is_word_byte bytes.now }
{
    bytes.iter().all(|b| is_word_byte(*b))
}

/// Whether bytes are a letter a to z and then letters a to z, digits and `_`.
pub fn is_word(name: &[u8]) -> bool
    ensures { result ≡ is_word name.now }
{
    match name {
        [] => false,
        [first, rest @ ..] => is_small_letter(*first) && are_word_bytes(rest),
    }
}

/// Whether bytes may name a connection: such a word of at most 63 bytes.
pub fn is_connection_name(name: &[u8]) -> bool
    ensures { result ≡ is_connection_name name.now }
{
    name.len() <= 63 && is_word(name)
}

/// Whether a name is among names.
pub fn has_name(names: &[Text], name: &Text) -> bool
    ensures { result ≡ has_name names.now name.now }
{
    names.iter().any(|known| *known == *name)
}
