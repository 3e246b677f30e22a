//! What is printed of the design of a text.
use fil_parse::{parse_fil, print_fil};
use std::test::Fail;

const MAC: &str =
    "comp Mac<G: 1>(@interface[G] go: 1, @[G, G+1] a: 8, @[G, G+1] b: 8, @[G, G+1] c: 8) -> (@[G+2, G+3] out: 8) {
  M := new FastMult[8];
  D1 := new Delay[8];
  D2 := new Delay[8];
  A := new Add[8];
  p := M<G>(a, b);
  c1 := D1<G>(c);
  c2 := D2<G+1>(c1.out);
  s := A<G+2>(p.out, c2.out);
  out = s.out;
}
";

/// A text, and what is printed of its design.
const PRINTED: &[(&str, &str)] = &[
    (MAC, MAC),
    ("comp A<G:1>()->(){}", "comp A<G: 1>() -> () {\n}\n"),
    (
        "import \"p.fil\"; comp A<G: 03, H: 2>(@[G+0, G+1] a: 8, @interface[H] go: 1,) -> (@[H+1, H+2] o: 8,) { /* one */
 v := new B [8, 4] <G, H+4>(a, 8'xfF, w.o,); w := new C; o = 4'b0101; } // two",
        "comp A<G: 3, H: 2>(@interface[H] go: 1, @[G, G+1] a: 8) -> (@[H+1, H+2] o: 8) {
  v := new B[8, 4]<G, H+4>(a, 8'd255, w.o);
  w := new C;
  o = 4'd5;
}
",
    ),
    (
        "comp A<G: 1>() -> () { v := new C<G>(); w := v<G>(); } comp B<G: 1>() -> () { }",
        "comp A<G: 1>() -> () {\n  v := new C<G>();\n  w := v<G>();\n}\ncomp B<G: 1>() -> () {\n}\n",
    ),
];

#[test]
fn what_is_read_is_printed(rt: HostRuntime) -> Result<(), Fail> {
    for (text, printed) in PRINTED {
        let design = parse_fil(rt.alloc(), text.as_bytes())?;
        let out = print_fil(rt.alloc(), &design)?;
        assert_eq!(rt; out.as_slice(), printed.as_bytes(), "of {text:?}");
    }
    Ok(())
}
