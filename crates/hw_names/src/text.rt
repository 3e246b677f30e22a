//! Texts as keys of a table, each hashed in one go: most names are short, and a few bytes are hashed quicker as one number.
ghost use Rattle.std.proofs.Common.{ap};
ghost use Rattle.std.specs.Prelude.{◌≡◌, fold, length};
ghost use Rattle.std.specs.Cmp.Lexicographic.{nat_list_eq_equiv};
ghost use Rattle.std.specs.Str.{bytes_eq};
ghost use Rattle.std.proofs.lemmas.Slice.Eq.{bytes_eq-Decides};
ghost use Rattle.hw_names.specs.inside.Hashing.{fed, packed};

use indexmap::Equivalent;
use std::hash::{Hash, Hasher};

/// The bytes as one number, behind their count.
fn pack(bytes: &[u8]) -> u64
    ensures { result ≡ packed (length bytes.now) bytes.now }
{
    let mut word = bytes.len() as u64;
    for byte in bytes {
        word = word << 8 | *byte as u64;
    }
    word
}

/// Feeds the text to the hasher.
fn feed<H: Hasher>(bytes: &[u8], state: &mut H)
    ensures { state.new ≡ fold H.write state.old (fed bytes.now) }
{
    if bytes.len() < 8 {
        state.write_u64(pack(bytes));
    } else {
        state.write(bytes);
    }
}

/// A text that a table has.
#[derive(Debug, PartialEq, Eq, Drop)]
pub(crate) struct Text {
    pub bytes: Vec<u8>,
}

impl Hash for Text {
    ghost hash_input = { λ text. fed text.bytes.items };

    ghost respects_eq = { λ x y same. ap fed ((bytes_eq-Decides x.bytes.items y.bytes.items).0 same) };

    fn hash<H: Hasher>(&self, state: &mut H) {
        feed(self.bytes.as_slice(), state);
    }
}

/// A text that is looked for.
#[derive(Clone, Copy, PartialEq, Eq)]
pub(crate) struct Sought<'a> {
    pub bytes: &'a [u8],
}

impl Hash for Sought<'_> {
    ghost hash_input = { λ sought. fed sought.bytes.now };

    ghost respects_eq = { λ x y same. ap fed ((bytes_eq-Decides x.bytes.now y.bytes.now).0 same) };

    fn hash<H: Hasher>(&self, state: &mut H) {
        feed(self.bytes, state);
    }
}

impl Equivalent<Text> for Sought<'_> {
    ghost equivalent = { λ sought text. bytes_eq sought.bytes.now text.bytes.items };

    ghost respects_hash = { λ sought text same. ap fed ((bytes_eq-Decides sought.bytes.now text.bytes.items).0 same) };

    ghost respects_eq = { λ sought x y. nat_list_eq_equiv.congr sought.bytes.now x.bytes.items y.bytes.items };

    fn equivalent(&self, key: &Text) -> bool {
        self.bytes == key.bytes.as_slice()
    }
}
