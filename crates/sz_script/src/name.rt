//! Names of arrays and flows.

ghost use Rattle.std.specs.Prelude.{◌≡◌};
ghost use Rattle.sz_script.specs.Terms.{string_bytes, is_name, is_name_byte};

use std::marker::Model;

/// The name of an array or of a flow. Contracts see its bytes. A name that a command holds has 1 to
/// 32 of a to z, 0 to 9 and _.
#[derive(Debug, Drop)]
pub struct Name {
    text: String,
}

impl Model for Name {
    ghost use Rattle.std.specs.Prelude.{ℕ, List, string_bytes};

    ghost Value = { List ℕ };

    ghost view = { λ n. string_bytes n.text };
}

impl Name {
    /// The name that is this text.
    pub fn of(text: String) -> Name
        ensures { result ≡ string_bytes text }
    {
        Name { text }
    }

    /// The text.
    pub fn as_str(&self) -> &str
        ensures { result.now ≡ self.now }
    {
        self.text.as_str()
    }
}

/// The most bytes that a name has.
const NAME_LIMIT: usize = 32;

/// Whether a text is a name: 1 to 32 of a to z, 0 to 9 and _.
pub fn is_name(text: &str) -> bool
    ensures { result ≡ is_name text.now }
{
    let bytes = text.as_bytes();
    if bytes.is_empty() || bytes.len() > NAME_LIMIT {
        return false;
    }
    for byte in bytes {
        if !is_name_byte(*byte) {
            return false;
        }
    }
    true
}

fn is_name_byte(byte: u8) -> bool
    ensures { result ≡ is_name_byte byte }
{
    matches!(byte, b'a'..=b'z' | b'0'..=b'9' | b'_')
}
