//! Arithmetic of values by their widths, and their bits.
ghost use Rattle.std.specs.Prelude.{◌≡◌};

use hw_bits::Bits;
use std::process::Abort;

fn bits(rt: &impl Abort, value: u128, width: u8) -> Bits
    ensures { result.width ≡ width }
{
    Bits::new(value, width).expect(rt, "the value fits")
}

// width, left, right; then sum, difference, product, shifted up, shifted down
const ARITHMETIC: [[u128; 8]; 9] = [
    [1, 1, 1, 0, 0, 1, 0, 0],
    [8, 200, 100, 44, 100, 32, 0, 0],
    [8, 150, 3, 153, 147, 194, 176, 18],
    [8, 128, 7, 135, 121, 128, 0, 1],
    [8, 129, 8, 137, 121, 8, 0, 0],
    [
        64,
        6364136223846793005,
        1442695040888963407,
        7806831264735756412,
        4921441182957829598,
        433315962919513059,
        0,
        0,
    ],
    [
        128,
        u128::MAX,
        1,
        0,
        u128::MAX - 1,
        u128::MAX,
        u128::MAX - 1,
        170141183460469231731687303715884105727,
    ],
    [
        128,
        3,
        1 << 127,
        (1 << 127) + 3,
        (1 << 127) + 3,
        1 << 127,
        0,
        0,
    ],
    [
        128,
        u128::MAX,
        128,
        127,
        u128::MAX - 128,
        u128::MAX - 127,
        0,
        0,
    ],
];

#[test]
fn wraps_at_the_width(rt: HostRuntime) {
    for [width, left, right, sum, difference, product, up, down] in ARITHMETIC {
        assert!(rt; width <= 128);
        let a = bits(&rt, left, width as u8);
        let b = bits(&rt, right, width as u8);
        assert_eq!(rt; a.add(b).value(), sum);
        assert_eq!(rt; a.sub(b).value(), difference);
        assert_eq!(rt; a.mul(b).value(), product);
        assert_eq!(rt; a.lsh(b).value(), up);
        assert_eq!(rt; a.rsh(b).value(), down);
    }
}

#[test]
fn takes_bits_apart(rt: HostRuntime) {
    assert_eq!(rt; Bits::new(0, 0), None);
    assert_eq!(rt; Bits::new(0, 129), None);
    assert_eq!(rt; Bits::new(16, 4), None);
    assert_eq!(rt; Bits::wrap(0x1f3, 4).value(), 3);
    let byte = bits(&rt, 0b1010_0110, 8);
    let mask = bits(&rt, 0b0000_1111, 8);
    assert_eq!(rt; byte.not().value(), 0b0101_1001);
    assert_eq!(rt; byte.and(mask).value(), 0b0000_0110);
    assert_eq!(rt; byte.or(mask).value(), 0b1010_1111);
    assert_eq!(rt; byte.xor(mask).value(), 0b1010_1001);
    assert!(rt; mask.less(byte) && !byte.less(byte) && byte.same(byte) && !byte.same(mask));
    assert_eq!(rt; byte.slice(5, 2), bits(&rt, 0b1001, 4));
    assert_eq!(rt; byte.pad(128), bits(&rt, 0b1010_0110, 128));
    let long = bits(&rt, u128::MAX >> 8, 120);
    assert_eq!(rt;
        byte.concat(long),
        bits(&rt, 0xa6ff_ffff_ffff_ffff_ffff_ffff_ffff_ffff, 128)
    );
    assert_eq!(rt; bits(&rt, 5, 128).not().value(), u128::MAX - 5);
}
