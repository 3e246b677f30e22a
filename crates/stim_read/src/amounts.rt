//! The versions of a stimulus, and the values that it gives to ports and words.
ghost use Rattle.std.specs.Prelude.{◌≡◌};
ghost use Rattle.serde_json.specs.View.{view};
ghost use Rattle.stim_read.specs.Parts.{number_at};
ghost use Rattle.stim_read.specs.Amounts.{has_sign_or_zero, decimal_in, amount_in, version_numbered, version_in};

use serde_json::Value;

/// A version of the format. In version 2 a value may also be a text of decimal digits.
#[derive(Clone, Copy, Debug, PartialEq, Eq)]
pub(crate) enum Version {
    One,
    Two,
}

/// The version with this number.
fn version_numbered(number: u64) -> Option<Version>
    ensures { result ≡ version_numbered number }
{
    match number {
        1 => Some(Version::One),
        2 => Some(Version::Two),
        _ => None,
    }
}

/// Whether the text begins with a plus, or with a zero that isn't all of it: `parse` would let these pass.
fn has_sign_or_zero(text: &str) -> bool
    ensures { result ≡ has_sign_or_zero text.now }
{
    text.starts_with('+') || (text.starts_with('0') && text.len() > 1)
}

/// The number that the text spells in decimal digits without a leading zero.
#[tactic(auto, using(crate::proofs::AmountLemmas::odd_text))]
fn decimal(text: &str) -> Option<u128>
    ensures { result ≡ decimal_in text.now }
{
    if has_sign_or_zero(text) {
        return None;
    }
    text.parse().ok()
}

/// The value that a JSON value gives to a port or a word.
pub(crate) fn amount(version: Version, value: &Value) -> Option<u128>
    ensures { result ≡ amount_in version (view value.now) }
{
    if let Some(number) = value.as_u64() {
        return Some(u128::from(number));
    }
    match version {
        Version::One => None,
        Version::Two => decimal(value.as_str()?),
    }
}

/// The number at this key.
pub(crate) fn number_at(key: &str, value: &Value) -> Option<u64>
    ensures { result ≡ number_at key.now (view value.now) }
{
    value.get(key).and_then(Value::as_u64)
}

/// The version at its key.
pub(crate) fn read_version(value: &Value) -> Option<Version>
    ensures { result ≡ version_in (view value.now) }
{
    version_numbered(number_at("version", value)?)
}
