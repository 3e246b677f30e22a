//! Values of a width of 1 to 128 bits.
ghost use Rattle.std.specs.Prelude.{◌≡◌, ◌+◌, ◌-◌, ◌^◌, ◌<◌, ◌≤◌, ◌↔◌, IfSome, IsSome, IsTrue, bit_and, bit_or, bit_xor};
ghost use Rattle.hw_bits.specs.declared.bits.TheConstants.{MAX_WIDTH};
ghost use Rattle.hw_bits.specs.Width.{low_bits, sum_bits, difference_bits, product_bits, inverted_bits, left_shifted_bits, right_shifted_bits, bits_between, joined_bits};

/// The greatest width, in bits. Whatever speaks of the greatest width cites this.
pub const MAX_WIDTH: u8 = 128;

/// An unsigned number of a width: it is below `2 ^ width`.
#[derive(Clone, Copy, Debug, PartialEq, Eq)]
pub struct Bits {
    value: u128,
    width: u8,
    pub ghost wide: { 1 ≤ width },
    pub ghost narrow: { width ≤ MAX_WIDTH },
    pub ghost fits: { value < 2 ^ width },
}

/// The greatest number of this width, in which each bit is 1.
fn ones(width: u8) -> u128
    requires wide { 1 ≤ width }
    requires narrow { width ≤ MAX_WIDTH }
    ensures { result ≡ 2 ^ width - 1 }
{
    u128::MAX >> (MAX_WIDTH - width)
}

impl Bits {
    /// The value of this width; `None` where the width isn't 1 to 128 or the value doesn't fit.
    pub fn new(value: u128, width: u8) -> Option<Bits>
        ensures made { IfSome result (λ bits. (bits.value ≡ value) × (bits.width ≡ width)) }
        ensures cause { IsSome result ↔ ((1 ≤ width) × (width ≤ MAX_WIDTH) × (value < 2 ^ width)) }
    {
        if width == 0 || width > MAX_WIDTH {
            return None;
        }
        if value > ones(width) {
            return None;
        }
        Some(Bits { value, width })
    }

    /// The low `width` bits of the value.
    pub fn wrap(value: u128, width: u8) -> Bits
        requires wide { 1 ≤ width }
        requires narrow { width ≤ MAX_WIDTH }
        ensures value { result.value ≡ low_bits width value }
        ensures width { result.width ≡ width }
    {
        Bits {
            value: value & ones(width),
            width,
        }
    }

    /// The number.
    pub fn value(self) -> u128
        ensures { result ≡ self.value }
    {
        self.value
    }

    /// The width, in bits.
    pub fn width(self) -> u8
        ensures { result ≡ self.width }
    {
        self.width
    }

    /// Each bit inverted.
    pub fn not(self) -> Bits
        ensures value { result.value ≡ inverted_bits self.width self.value }
        ensures width { result.width ≡ self.width }
    {
        Bits {
            value: ones(self.width) - self.value,
            width: self.width,
        }
    }

    /// The sum of two values of one width, without its carry.
    pub fn add(self, other: Bits) -> Bits
        requires { self.width ≡ other.width }
        ensures value { result.value ≡ sum_bits self.width self.value other.value }
        ensures width { result.width ≡ self.width }
    {
        Bits::wrap(self.value.wrapping_add(other.value), self.width)
    }

    /// The difference of two values of one width; below 0 it wraps.
    pub fn sub(self, other: Bits) -> Bits
        requires { self.width ≡ other.width }
        ensures value { result.value ≡ difference_bits self.width self.value other.value }
        ensures width { result.width ≡ self.width }
    {
        Bits::wrap(self.value.wrapping_sub(other.value), self.width)
    }

    /// The low half of the product of two values of one width: as many bits as each has.
    pub fn mul(self, other: Bits) -> Bits
        requires { self.width ≡ other.width }
        ensures value { result.value ≡ product_bits self.width self.value other.value }
        ensures width { result.width ≡ self.width }
    {
        Bits::wrap(self.value.wrapping_mul(other.value), self.width)
    }

    /// The bits that are 1 in both of two values of one width.
    pub fn and(self, other: Bits) -> Bits
        requires { self.width ≡ other.width }
        ensures value { result.value ≡ bit_and self.value other.value }
        ensures width { result.width ≡ self.width }
    {
        Bits {
            value: self.value & other.value,
            width: self.width,
        }
    }

    /// The bits that are 1 in either of two values of one width.
    pub fn or(self, other: Bits) -> Bits
        requires { self.width ≡ other.width }
        ensures value { result.value ≡ bit_or self.value other.value }
        ensures width { result.width ≡ self.width }
    {
        Bits {
            value: self.value | other.value,
            width: self.width,
        }
    }

    /// The bits that differ between two values of one width.
    pub fn xor(self, other: Bits) -> Bits
        requires { self.width ≡ other.width }
        ensures value { result.value ≡ bit_xor self.value other.value }
        ensures width { result.width ≡ self.width }
    {
        Bits {
            value: self.value ^ other.value,
            width: self.width,
        }
    }

    /// Shifted up by the number of bits that `other`, of the same width, says; by the width or more it is 0.
    pub fn lsh(self, other: Bits) -> Bits
        requires { self.width ≡ other.width }
        ensures value { result.value ≡ left_shifted_bits self.width self.value other.value }
        ensures width { result.width ≡ self.width }
    {
        let value = if other.value < self.width as u128 {
            self.value << other.value
        } else {
            0
        };
        Bits::wrap(value, self.width)
    }

    /// Shifted down by the number of bits that `other`, of the same width, says; by the width or more it is 0.
    pub fn rsh(self, other: Bits) -> Bits
        requires { self.width ≡ other.width }
        ensures value { result.value ≡ right_shifted_bits self.width self.value other.value }
        ensures width { result.width ≡ self.width }
    {
        let value = if other.value < self.width as u128 {
            self.value >> other.value
        } else {
            0
        };
        Bits {
            value,
            width: self.width,
        }
    }

    /// Whether two values of one width are equal.
    pub fn same(self, other: Bits) -> bool
        requires { self.width ≡ other.width }
        ensures { IsTrue result ↔ (self.value ≡ other.value) }
    {
        self.value == other.value
    }

    /// Whether this value is below another of its width.
    pub fn less(self, other: Bits) -> bool
        requires { self.width ≡ other.width }
        ensures { IsTrue result ↔ (self.value < other.value) }
    {
        self.value < other.value
    }

    /// The bits from `hi` down to `lo`, both included: `hi - lo + 1` bits. Bit 0 is the lowest.
    pub fn slice(self, hi: u8, lo: u8) -> Bits
        requires order { lo ≤ hi }
        requires within { hi < self.width }
        ensures value { result.value ≡ bits_between self.value hi lo }
        ensures width { result.width ≡ hi + 1 - lo }
    {
        Bits::wrap(self.value >> lo, hi - lo + 1)
    }

    /// This value above the bits of `low`; the widths add up to at most 128.
    pub fn concat(self, low: Bits) -> Bits
        requires { self.width + low.width ≤ MAX_WIDTH }
        ensures value { result.value ≡ joined_bits low.width self.value low.value }
        ensures width { result.width ≡ self.width + low.width }
    {
        Bits {
            value: (self.value << low.width) | low.value,
            width: self.width + low.width,
        }
    }

    /// The same number at this width, with zeros above; the width is at least the old one and at most 128.
    pub fn pad(self, width: u8) -> Bits
        requires wider { self.width ≤ width }
        requires narrow { width ≤ MAX_WIDTH }
        ensures value { result.value ≡ self.value }
        ensures width { result.width ≡ width }
    {
        Bits {
            value: self.value,
            width,
        }
    }
}
