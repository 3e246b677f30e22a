//! Designs and stimuli of which each has a report, a line, or both.

/// A counter.
pub(crate) const COUNTER: &str = "net counter
out q 8
cell r std_reg 8
cell a std_add 8
set a.left = r.out
set a.right = 8'd1
set r.in = a.out
set r.write_en = 1'd1
set q = r.out
end
";

/// A register that is set to 5, and then doubled.
pub(crate) const DOUBLE: &str = "component main() -> (v: 8) {
  cells {
    x = std_reg(8);
    a = std_add(8);
  }
  wires {
    group set {
      x.in = 8'd5;
      x.write_en = 1'd1;
      set[done] = x.done;
    }
    group double {
      a.left = x.out;
      a.right = x.out;
      x.in = a.out;
      x.write_en = 1'd1;
      double[done] = x.done;
    }
    v = x.out;
  }
  control {
    seq {
      set;
      double;
    }
  }
}
";

/// A design with a wire that reads itself, through its group's done line.
pub(crate) const LOOPED: &str =
    "component main() -> () { cells { w = std_wire(1); } wires { group g { w.in = 1'd1; g[done] = w.out; } } control { g; } }";

/// A text with a word that is left out.
pub(crate) const REPEATS: &str =
    "component main() -> () { cells { } wires { } control { repeat 3 { } } }";

/// Two groups that drive one port, first apart and then at once.
pub(crate) const MEETING: &str = "component main() -> () {
  cells { r = std_reg(1); }
  wires {
    group a { r.in = 1'd0; r.write_en = 1'd1; a[done] = r.done; }
    group b { r.in = 1'd0; r.write_en = 1'd1; b[done] = r.done; }
  }
  control { a; par { a; b; } }
}
";

/// A stimulus of four rows, of which the first has go.
pub(crate) const FOUR: &str =
    r#"{"version":1,"cycles":4,"inputs":[{"from":0,"set":{"go":1}},{"from":1,"set":{"go":0}}]}"#;

/// A memory that is shown.
pub(crate) const SHOWN: &str = "net shown
out q 8
ext m std_mem_d1 8 3 2
set m.addr0 = 2'd1
set m.write_data = 8'd200
set m.write_en = 1'd1
set q = m.read_data
end
";

/// A Conflict after a row.
pub(crate) const CLASH: &str = "net clash
out q 8
cell r std_reg 8
set q = 8'd1
set q = r.done ? 8'd1
set r.write_en = 1'd1
end
";

/// A Conflict that an input makes.
pub(crate) const GATED: &str = "net gated
in a 1
out q 1
set q = a
set q = (a == 1'd1) ? 1'd0
end
";

pub(crate) const GATED_STIMULUS: &str =
    r#"{"version":1,"cycles":4,"inputs":[{"from":2,"set":{"a":1}}]}"#;

/// A sum, as a Filament design.
pub(crate) const SUM: &str =
    "comp Sum<G: 1>(@[G, G+1] a: 8) -> (@[G, G+1] o: 8) { s := new Add[8]<G>(a, 8'd1); o = s.out; }";

pub(crate) const SUM_STIMULUS: &str =
    r#"{"version":1,"transactions":[{"start":0,"inputs":{"a":1}},{"start":1,"inputs":{"a":255}}]}"#;
