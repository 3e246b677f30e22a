//! The canonical texts of designs.
use crate::case::read;
use cal_print::print_calyx;
use std::alloc::Global;
use std::process::Abort;
use std::test::Fail;

/// A text, and what is printed of its design.
type Printed = (&'static str, &'static str);

/// Components, their ports, and what is dropped.
const COMPONENTS: &[Printed] = &[
    (
        "component a(){cells{}wires{}}",
        "component a() -> () {\n  cells {\n  }\n  wires {\n  }\n}\n",
    ),
    (
        "component a() { cells { } wires { } control { } }",
        "component a() -> () {\n  cells {\n  }\n  wires {\n  }\n  control {\n  }\n}\n",
    ),
    (
        "import \"primitives/core.futil\"; // the library
import \"b.futil\"; /* and this */ @pos(1) @x component main<\"toplevel\"=1, \"static\"=0>(@go go: 1, @clk clk: 1, @reset(1) reset: 1, a: 008,)
-> (@done done: 1, clk: 1, reset: 128,) { cells { } wires { } }",
        "component main(go: 1, a: 8) -> (done: 1, clk: 1, reset: 128) {\n  cells {\n  }\n  wires {\n  }\n}\n",
    ),
    (
        "component b(clk: 1) -> () { cells { } wires { } } component a(clk1: 1, Clk: 1) -> () { cells { } wires { } }",
        "component b() -> () {\n  cells {\n  }\n  wires {\n  }\n}\ncomponent a(clk1: 1, Clk: 1) -> () {\n  cells {\n  }\n  wires {\n  }\n}\n",
    ),
    // No rule is judged.
    (
        "component a$(x: 0, x: 340282366920938463463374607431768211455) -> () { cells { } wires { } }",
        "component a$(x: 0, x: 340282366920938463463374607431768211455) -> () {\n  cells {\n  }\n  wires {\n  }\n}\n",
    ),
];

/// Cells, in each spelling of `@external`.
const CELLS: Printed = (
    "component main() -> () { cells {
a = std_reg(8); @external b = std_reg(1); @external(1) c = comb_mem_d1(8, 4, 2); @external(0) d = std_mem_d2(8, 02, 2, 1, 1);
@data e = none(); @data @external(7) @pos(3) f = other(); g<\"external\"=1> = std_reg(1); h<\"data\"=1, \"external\"=0> = std_reg(1);
@externals i<\"extern\"=1, \"External\"=1> = std_reg(1); @external j<\"external\"=1> = std_const(4, 0015);
} wires { } }",
    "component main() -> () {
  cells {
    a = std_reg(8);
    @external b = std_reg(1);
    @external c = comb_mem_d1(8, 4, 2);
    @external d = std_mem_d2(8, 2, 2, 1, 1);
    e = none();
    @external f = other();
    @external g = std_reg(1);
    @external h = std_reg(1);
    i = std_reg(1);
    @external j = std_const(4, 15);
  }
  wires {
  }
}
",
);

/// Groups before continuous assignments, and assignments before done lines.
const WIRES: Printed = (
    "component main() -> () { cells { } wires {
q = a; @pos(1) group g<\"promotable\"=2> { @pos(2) r.in = 8'xFf; @pos(3) g[done] = r.done; r.write_en=1'b1; }
@pos(4) q.p = 008'o017 ;
comb group c { } group h { h[done] = x ? 1'd1; i[done] = !x.y ? go; }
r = 128'd340282366920938463463374607431768211455; comb group d { lt.left = r.out; d[done] = lt.out; } } }",
    "component main() -> () {
  cells {
  }
  wires {
    group g {
      r.in = 8'd255;
      r.write_en = 1'd1;
      g[done] = r.done;
    }
    comb group c {
    }
    group h {
      h[done] = x ? 1'd1;
      i[done] = !x.y ? go;
    }
    comb group d {
      lt.left = r.out;
      d[done] = lt.out;
    }
    q = a;
    q.p = 8'd15;
    r = 128'd340282366920938463463374607431768211455;
  }
}
",
);

/// Guards of all forms; parentheses that say nothing are dropped.
const GUARDS: Printed = (
    "component main() -> () { cells { } wires {
q=a?b; q=a.b?c.d; q = 1'b1 ? 4'b1010; q = a==b ? c; q=a!=b?c; q = a<b ? c; q = a>b ? c; q = a<=b ? c; q = a>=b ? c; q = 8'x0f == x.out ? c;
q = (a) ? b; q = ((a)) ? b; q = (a == b) ? c; q = ((a & b)) ? c;
q = !a ? b; q = !!a ? b; q = !(a) ? b; q = !(!(a)) ? b; q = !8'd1 ? b;
q = !(a == b) ? c; q = !(a & b) ? c; q = !(a | b) ? c; q = !!(a & !b) ? c; q = !(!(a | b)) ? c;
q = a & b ? c; q = a & b & c ? d; q = (a & b) & c ? d; q = a & (b & c) ? d;
q = a | b ? c; q = a | b | c ? d; q = (a | b) | c ? d; q = a | (b | c) ? d;
q = a & b | c ? d; q = a | b & c ? d; q = (a | b) & c ? d; q = a & (b | c) ? d; q = a & b | c & d | e ? f;
q = a == b & c ? d; q = (a == b) & c ? d; q = a & b == c ? d; q = a == b | c != d ? e; q = !a & !b | !(c & d) ? e;
q = ((a & (b | (c & (d))))) ? e; q = (a & b) ? c; q = ((a | b) & (c | d)) | e ? f;
} }",
    "component main() -> () {
  cells {
  }
  wires {
    q = a ? b;
    q = a.b ? c.d;
    q = 1'd1 ? 4'd10;
    q = a == b ? c;
    q = a != b ? c;
    q = a < b ? c;
    q = a > b ? c;
    q = a <= b ? c;
    q = a >= b ? c;
    q = 8'd15 == x.out ? c;
    q = a ? b;
    q = a ? b;
    q = a == b ? c;
    q = a & b ? c;
    q = !a ? b;
    q = !!a ? b;
    q = !a ? b;
    q = !!a ? b;
    q = !8'd1 ? b;
    q = !(a == b) ? c;
    q = !(a & b) ? c;
    q = !(a | b) ? c;
    q = !!(a & !b) ? c;
    q = !!(a | b) ? c;
    q = a & b ? c;
    q = a & b & c ? d;
    q = (a & b) & c ? d;
    q = a & (b & c) ? d;
    q = a | b ? c;
    q = a | b | c ? d;
    q = (a | b) | c ? d;
    q = a | (b | c) ? d;
    q = (a & b) | c ? d;
    q = a | (b & c) ? d;
    q = (a | b) & c ? d;
    q = a & (b | c) ? d;
    q = (a & b) | (c & d) | e ? f;
    q = a == b & c ? d;
    q = a == b & c ? d;
    q = a & b == c ? d;
    q = a == b | c != d ? e;
    q = (!a & !b) | !(c & d) ? e;
    q = a & (b | (c & d)) ? e;
    q = a & b ? c;
    q = ((a | b) & (c | d)) | e ? f;
  }
}
",
);

/// Control sections, each of a component that has nothing else.
const CONTROL: &[Printed] = &[
    ("g;", "    g;\n"),
    ("@pos(1) g;", "    g;\n"),
    ("g; h;", "    seq {\n      g;\n      h;\n    }\n"),
    ("seq { }", "    seq {\n    }\n"),
    ("seq { g; }", "    seq {\n      g;\n    }\n"),
    (
        "seq { seq { g; } } ",
        "    seq {\n      seq {\n        g;\n      }\n    }\n",
    ),
    ("par { }", "    par {\n    }\n"),
    (
        "@NODE_ID(0) @x par { g; seq { } }",
        "    par {\n      g;\n      seq {\n      }\n    }\n",
    ),
    (
        "par { g; } h;",
        "    seq {\n      par {\n        g;\n      }\n      h;\n    }\n",
    ),
    ("if a { }", "    if a {\n    }\n"),
    (
        "if a.b with c { g; }",
        "    if a.b with c {\n      g;\n    }\n",
    ),
    ("if a { } else { }", "    if a {\n    }\n"),
    ("if a { seq { } } else { seq { } }", "    if a {\n    }\n"),
    (
        "if a { } else { g; }",
        "    if a {\n    } else {\n      g;\n    }\n",
    ),
    (
        "if a { g; h; } else { h; g; }",
        "    if a {\n      seq {\n        g;\n        h;\n      }\n    } else {\n      seq {\n        h;\n        g;\n      }\n    }\n",
    ),
    (
        "if a { seq { g; h; } } else { par { } }",
        "    if a {\n      seq {\n        g;\n        h;\n      }\n    } else {\n      par {\n      }\n    }\n",
    ),
    (
        "if a { if b { g; } else { } } else { if b { } else { g; } }",
        "    if a {\n      if b {\n        g;\n      }\n    } else {\n      if b {\n      } else {\n        g;\n      }\n    }\n",
    ),
    ("while a { }", "    while a {\n    }\n"),
    (
        "while a.b with c { g; }",
        "    while a.b with c {\n      g;\n    }\n",
    ),
    (
        "while a { @pos(1) while b { g; h; } }",
        "    while a {\n      while b {\n        seq {\n          g;\n          h;\n        }\n      }\n    }\n",
    ),
    ("invoke c()();", "    invoke c()();\n"),
    (
        "invoke c(a=b,c=8'd1,d=e.f,)(g=h,i=j.k,);",
        "    invoke c(a = b, c = 8'd1, d = e.f)(g = h, i = j.k);\n",
    ),
    (
        "seq { g; while a { invoke c(a = b)(); } }",
        "    seq {\n      g;\n      while a {\n        invoke c(a = b)();\n      }\n    }\n",
    ),
];

/// The text of a component with this control section.
fn with_control(alloc: Global, control: &str) -> Result<String, Fail> {
    let text = format!(in alloc;
        "component main() -> () {{\n  cells {{\n  }}\n  wires {{\n  }}\n  control {{\n{control}  }}\n}}\n"
    )?;
    Ok(text)
}

/// Of the design that a text spells this is printed, and it is read to the same again.
fn try_printed(rt: &impl Abort, alloc: Global, text: &str, wanted: &str) -> Result<(), Fail> {
    let design = read(alloc, text)?;
    let printed = print_calyx(alloc, &design)?;
    assert_eq!(rt; printed.as_slice(), wanted.as_bytes(), "of {text}");
    let again = print_calyx(alloc, &read(alloc, wanted)?)?;
    assert_eq!(rt; again.as_slice(), wanted.as_bytes(), "again of {text}");
    Ok(())
}

#[test]
fn components_are_printed(rt: HostRuntime) -> Result<(), Fail> {
    for (text, wanted) in COMPONENTS {
        try_printed(&rt, rt.alloc(), text, wanted)?;
    }
    for (text, wanted) in [CELLS, WIRES, GUARDS] {
        try_printed(&rt, rt.alloc(), text, wanted)?;
    }
    Ok(())
}

#[test]
fn control_is_printed(rt: HostRuntime) -> Result<(), Fail> {
    let alloc = rt.alloc();
    for (control, lines) in CONTROL {
        let text = with_control(alloc, control)?;
        let wanted = with_control(alloc, lines)?;
        try_printed(&rt, alloc, text.as_str(), wanted.as_str())?;
    }
    Ok(())
}
