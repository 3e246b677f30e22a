//! Texts of netlists that are printed as they are read, and texts that are refused.
use crate::case::net_of;
use net_text::{NetTextEnd, print_net, read_net};
use std::test::Fail;

const COUNTER: &str = "net counter
out q 8
cell r std_reg 8
cell a std_add 8
set a.left = r.out
set a.right = 8'd1
set r.in = a.out
set r.write_en = 1'd1
set q = r.out
end
";

const GUARDED: &str = "net _n$1
in go 1
out set 340282366920938463463374607431768211455
wire end.x 0
ext top.m std_mem_d1 32 4 2
cell none fil_thing
set set = end.x
set a = !go ? 128'd340282366920938463463374607431768211455
set a = !!(go == 1'd1) ? b.c
set a = (!x & (x != y) & (1'd0 < y)) ? b
set a = ((x > y) | (x <= y) | !(x >= y)) ? b
set a = !((x & y) | (y & !x)) ? b
end
";

/// Texts, and the byte at which each is refused.
const REFUSED: [(&str, usize); 21] = [
    ("", 0),
    ("net a", 0),
    ("net a\n", 6),
    ("net a\nend", 6),
    ("net a\nend\nx", 10),
    ("net a\nend\n\n", 10),
    ("net 1a\nend\n", 0),
    ("net a.b\nend\n", 0),
    ("net a\r\nend\n", 0),
    ("net a\nin x 08\nend\n", 6),
    ("net a\nin x  8\nend\n", 6),
    ("net a\nin x.y 8\nend\n", 6),
    ("net a\nout q 8\nin x 8\nend\n", 14),
    (
        "net a\nin x 340282366920938463463374607431768211456\nend\n",
        6,
    ),
    ("net a\ncell x y 1 \nend\n", 6),
    ("net a\nset a.b = 0'd\nend\n", 6),
    ("net a\nset a = b ? c\n", 20),
    ("net a\nset a = !!b ? c\nset x = (a & b | c) ? d\nend\n", 22),
    ("net a\nset a = (a) ? d\nend\n", 6),
    ("net a\nset a = (!a == b) ? d\nend\n", 6),
    ("net a\nset a = !b\nend\n", 6),
];

#[test]
fn prints_what_is_read(rt: HostRuntime) -> Result<(), Fail> {
    for text in [COUNTER, GUARDED, "net a\nend\n"] {
        let net = net_of(rt.alloc(), text)?;
        let printed = print_net(rt.alloc(), &net)?;
        assert_eq!(rt; printed.as_slice(), text.as_bytes());
    }
    Ok(())
}

#[test]
fn refuses_at(rt: HostRuntime) {
    for (text, at) in REFUSED {
        assert!(rt; text.len() < 100);
        let end = read_net(rt.alloc(), text.as_bytes()).err();
        assert_eq!(rt; end, Some(NetTextEnd::Grammar { at }), "{text:?}");
    }
}
