//! Numbers and literals.
ghost use Rattle.std.specs.Prelude.{◌≡◌, ◌≤◌, ◌<◌, ◌^◌, ◌↔◌, length, IsSome, IfSome};
ghost use Rattle.std.specs.Option.{SomeIff};
ghost use Rattle.std.specs.List.{prefix_len};
ghost use Rattle.hw_lex.specs.declared.token.Kind.TheVariants as Kind;
ghost use Rattle.hw_lex.specs.Number.{radix, is_digit, digit_value, value_in, base_of, number_of, width_of, value_of, quoted_value, Fits};

/// The base of a literal's digits.
#[derive(Clone, Copy, Debug, PartialEq, Eq)]
pub enum Base {
    Binary,
    Octal,
    Decimal,
    Hexadecimal,
}

/// The width and the value of a literal, in which the width need not be that of a value, nor the value fit it.
#[derive(Clone, Copy, Debug, PartialEq, Eq)]
pub struct Literal {
    pub width: u128,
    pub value: u128,
}

impl Base {
    /// The base that a literal names by this byte.
    pub fn of(letter: u8) -> Option<Base>
        ensures { result ≡ base_of letter }
    {
        match letter {
            b'd' => Some(Base::Decimal),
            b'b' => Some(Base::Binary),
            b'o' => Some(Base::Octal),
            b'x' => Some(Base::Hexadecimal),
            _ => None,
        }
    }

    /// How many digits the base has.
    pub fn radix(self) -> u8
        ensures { result ≡ radix self }
    {
        match self {
            Base::Binary => 2,
            Base::Octal => 8,
            Base::Decimal => 10,
            Base::Hexadecimal => 16,
        }
    }

    /// Whether the byte is a digit of the base.
    pub fn is_digit(self, byte: u8) -> bool
        ensures { result ≡ is_digit self byte }
    {
        match self {
            Base::Binary => matches!(byte, b'0'..=b'1'),
            Base::Octal => matches!(byte, b'0'..=b'7'),
            Base::Decimal => matches!(byte, b'0'..=b'9'),
            Base::Hexadecimal => matches!(byte, b'0'..=b'9' | b'A'..=b'F' | b'a'..=b'f'),
        }
    }

    /// How many digits of the base the text begins with.
    #[tactic(auto, using(crate::proofs::Fronts::prefix_fits))]
    pub fn digit_count(self, text: &[u8]) -> usize
        ensures is { result ≡ prefix_len (is_digit self) text.now }
        ensures fits { result ≤ length text.now }
    {
        text.iter().take_while(|byte| self.is_digit(**byte)).count()
    }

    /// The number that digits of the base spell; `None` where it is `2^128` or more.
    pub fn value(self, digits: &[u8]) -> Option<u128>
        ensures { SomeIff result (value_in self digits.now < 2 ^ 128) (value_in self digits.now) }
    {
        let mut value = 0u128;
        for digit in digits {
            value = value
                .checked_mul(self.radix() as u128)?
                .checked_add(digit_value(*digit) as u128)?;
        }
        Some(value)
    }
}

/// The value of a digit.
fn digit_value(digit: u8) -> u8
    ensures { result ≡ digit_value digit }
{
    match digit {
        ..=b'9' => digit.saturating_sub(b'0'),
        b':'..=b'F' => digit.saturating_sub(b'A' - 10),
        _ => digit.saturating_sub(b'a' - 10),
    }
}

/// The number that decimal digits spell; `None` where it is `2^128` or more.
pub fn read_number(bytes: &[u8]) -> Option<u128>
    ensures { SomeIff result (number_of bytes.now < 2 ^ 128) (number_of bytes.now) }
{
    Base::Decimal.value(bytes)
}

/// The value of a literal, of which the quote and what follows it are given; `None` where it is `2^128` or more.
fn quoted_value(quoted: &[u8]) -> Option<u128>
    ensures { SomeIff result (quoted_value quoted.now < 2 ^ 128) (quoted_value quoted.now) }
{
    match quoted {
        [_, letter, digits @ ..] => match Base::of(*letter) {
            Some(base) => base.value(digits),
            None => Some(0),
        },
        _ => Some(0),
    }
}

/// The width and the value of a literal; `None` where one of them is `2^128` or more.
pub fn read_literal(bytes: &[u8]) -> Option<Literal>
    ensures cause { IsSome result ↔ Fits Kind.Literal bytes.now }
    ensures numbers { IfSome result (λ literal.
        (literal.width ≡ width_of bytes.now) × (literal.value ≡ value_of bytes.now)) }
{
    let (width, quoted) = bytes.split_at(Base::Decimal.digit_count(bytes));
    let width = read_number(width)?;
    let value = quoted_value(quoted)?;
    Some(Literal { width, value })
}
