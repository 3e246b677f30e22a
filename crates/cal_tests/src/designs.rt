//! Whole designs, printed: the examples, which are in the canonical layout but for their comments, and others with all that the language has.
use crate::case::read;
use cal_print::print_calyx;
use std::test::Fail;

/// Two steps.
pub(crate) const DOUBLE: &str = "component main() -> (v: 8) {
  cells {
    x = std_reg(8);
    a = std_add(8);
  }
  wires {
    group set {
      x.in = 8'd5;
      x.write_en = 1'd1;
      set[done] = x.done;
    }
    group double {
      a.left = x.out;
      a.right = x.out;
      x.in = a.out;
      x.write_en = 1'd1;
      double[done] = x.done;
    }
    v = x.out;
  }
  control {
    seq {
      set;
      double;
    }
  }
}
";

/// A loop over a memory.
pub(crate) const TOTAL: &str = "component main() -> (total: 8) {
  cells {
    @external words = std_mem_d1(8, 4, 3);
    at = std_reg(3);
    less = std_lt(3);
    next = std_add(3);
    sum = std_reg(8);
    plus = std_add(8);
  }
  wires {
    comb group compare {
      less.left = at.out;
      less.right = 3'd4;
    }
    group add {
      words.addr0 = at.out;
      plus.left = sum.out;
      plus.right = words.read_data;
      sum.in = plus.out;
      sum.write_en = 1'd1;
      add[done] = sum.done;
    }
    group step {
      next.left = at.out;
      next.right = 3'd1;
      at.in = next.out;
      at.write_en = 1'd1;
      step[done] = at.done;
    }
    total = sum.out;
  }
  control {
    while less.out with compare {
      par {
        add;
        step;
      }
    }
  }
}
";

/// A component that is invoked twice.
pub(crate) const CUBE: &str = "component times(a: 8, b: 8) -> (p: 8) {
  cells {
    m = std_mult_pipe(8);
  }
  wires {
    group multiply {
      m.left = a;
      m.right = b;
      m.go = 1'd1;
      multiply[done] = m.done;
    }
    p = m.out;
  }
  control {
    multiply;
  }
}
component main(n: 8) -> (cube: 8) {
  cells {
    t = times();
    square = std_reg(8);
  }
  wires {
    cube = t.p;
  }
  control {
    seq {
      invoke t(a = n, b = n)();
      invoke square(in = t.p)();
      invoke t(a = square.out, b = n)();
    }
  }
}
";

/// A register that is set, and then counts.
pub(crate) const COUNT: &str = "component main() -> (v: 8) {
  cells {
    x = std_reg(8);
    a = std_add(8);
  }
  wires {
    group one {
      x.in = 8'd1;
      x.write_en = 1'd1;
      one[done] = x.done;
    }
    group inc {
      a.left = x.out;
      a.right = 8'd1;
      x.in = a.out;
      x.write_en = 1'd1;
      inc[done] = x.done;
    }
    v = x.out;
  }
  control {
    seq {
      one;
      inc;
    }
  }
}
";

/// A component that adds 1, invoked twice, and a memory that takes what it gives.
pub(crate) const TWICE: &str = "component inc(a: 8) -> (b: 8) {
  cells { r = std_reg(8); s = std_add(8); }
  wires {
    group add { s.left = a; s.right = 8'd1; r.in = s.out; r.write_en = 1'd1; add[done] = r.done; }
    b = r.out;
  }
  control { add; }
}
component main() -> () {
  cells { @external m = std_mem_d1(8, 4, 2); c = inc(); }
  wires {
    group put0 { m.addr0 = 2'd0; m.write_data = c.b; m.write_en = 1'd1; put0[done] = m.done; }
    group put1 { m.addr0 = 2'd1; m.write_data = c.b; m.write_en = 1'd1; put1[done] = m.done; }
  }
  control { seq { invoke c(a = 8'd4)(); put0; invoke c(a = c.b)(); put1; } }
}
";

/// The dot product of two memories.
pub(crate) const DOT: &str = "import \"primitives/core.futil\";
component main<\"toplevel\"=1>(@go go: 1, @clk clk: 1, @reset reset: 1) -> (@done done: 1) {
  cells {
    @external(1) a = comb_mem_d1(32, 8, 3);
    @external(1) b = comb_mem_d1(32, 8, 3);
    @external(1) o = comb_mem_d1(32, 1, 1);
    i = std_reg(4); s = std_reg(32); lt = std_lt(4); ad = std_add(4);
    sum = std_add(32); sl = std_slice(4, 3); mu = std_mult_pipe(32);
  }
  wires {
    comb group cond { lt.left = i.out; lt.right = 4'd8; }
    group mul {
      sl.in = i.out; a.addr0 = sl.out; b.addr0 = sl.out;
      mu.left = a.read_data; mu.right = b.read_data;
      mu.go = !mu.done ? 1'd1; mul[done] = mu.done;
    }
    group acc { sum.left = s.out; sum.right = mu.out; s.in = sum.out; s.write_en = 1'd1; acc[done] = s.done; }
    group up { ad.left = i.out; ad.right = 4'd1; i.in = ad.out; i.write_en = 1'd1; up[done] = i.done; }
    group fin { o.addr0 = 1'd0; o.write_data = s.out; o.write_en = 1'd1; fin[done] = o.done; }
  }
  control {
    @NODE_ID(0) seq {
      while lt.out with cond { seq { mul; par { acc; up; } } }
      fin;
    }
  }
}
";

/// Designs in the canonical layout.
const CANONICAL: &[&str] = &[DOUBLE, TOTAL, CUBE, COUNT];

/// What is printed of `DOT`.
const DOT_PRINTED: &str = "component main(go: 1) -> (done: 1) {
  cells {
    @external a = comb_mem_d1(32, 8, 3);
    @external b = comb_mem_d1(32, 8, 3);
    @external o = comb_mem_d1(32, 1, 1);
    i = std_reg(4);
    s = std_reg(32);
    lt = std_lt(4);
    ad = std_add(4);
    sum = std_add(32);
    sl = std_slice(4, 3);
    mu = std_mult_pipe(32);
  }
  wires {
    comb group cond {
      lt.left = i.out;
      lt.right = 4'd8;
    }
    group mul {
      sl.in = i.out;
      a.addr0 = sl.out;
      b.addr0 = sl.out;
      mu.left = a.read_data;
      mu.right = b.read_data;
      mu.go = !mu.done ? 1'd1;
      mul[done] = mu.done;
    }
    group acc {
      sum.left = s.out;
      sum.right = mu.out;
      s.in = sum.out;
      s.write_en = 1'd1;
      acc[done] = s.done;
    }
    group up {
      ad.left = i.out;
      ad.right = 4'd1;
      i.in = ad.out;
      i.write_en = 1'd1;
      up[done] = i.done;
    }
    group fin {
      o.addr0 = 1'd0;
      o.write_data = s.out;
      o.write_en = 1'd1;
      fin[done] = o.done;
    }
  }
  control {
    seq {
      while lt.out with cond {
        seq {
          mul;
          par {
            acc;
            up;
          }
        }
      }
      fin;
    }
  }
}
";

/// What is printed of `TWICE`.
const TWICE_PRINTED: &str = "component inc(a: 8) -> (b: 8) {
  cells {
    r = std_reg(8);
    s = std_add(8);
  }
  wires {
    group add {
      s.left = a;
      s.right = 8'd1;
      r.in = s.out;
      r.write_en = 1'd1;
      add[done] = r.done;
    }
    b = r.out;
  }
  control {
    add;
  }
}
component main() -> () {
  cells {
    @external m = std_mem_d1(8, 4, 2);
    c = inc();
  }
  wires {
    group put0 {
      m.addr0 = 2'd0;
      m.write_data = c.b;
      m.write_en = 1'd1;
      put0[done] = m.done;
    }
    group put1 {
      m.addr0 = 2'd1;
      m.write_data = c.b;
      m.write_en = 1'd1;
      put1[done] = m.done;
    }
  }
  control {
    seq {
      invoke c(a = 8'd4)();
      put0;
      invoke c(a = c.b)();
      put1;
    }
  }
}
";

#[test]
fn designs_are_printed(rt: HostRuntime) -> Result<(), Fail> {
    let alloc = rt.alloc();
    for text in CANONICAL {
        let printed = print_calyx(alloc, &read(alloc, text)?)?;
        assert_eq!(rt; printed.as_slice(), text.as_bytes());
    }
    for (text, wanted) in [(DOT, DOT_PRINTED), (TWICE, TWICE_PRINTED)] {
        let printed = print_calyx(alloc, &read(alloc, text)?)?;
        assert_eq!(rt; printed.as_slice(), wanted.as_bytes());
    }
    Ok(())
}
