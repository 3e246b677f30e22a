//! Signatures of primitives, counted by hand.
use fil_ast::FilDesign;
use fil_sig::{SigEnd, signature};
use hw_names::Names;
use std::test::Fail;

/// The rule that a use of a name breaks where there are no components, 0 where it breaks none, and the
/// numbers of events, inputs and outputs that it has then.
const USES: &[(&str, u128, u8, (usize, usize, usize))] = &[
    ("Add", 8, 0, (1, 2, 1)),
    ("Reg", 128, 0, (2, 1, 1)),
    ("SeqMult", 1, 0, (1, 2, 1)),
    ("Add", 129, 3, (0, 0, 0)),
    ("std_add", 8, 2, (0, 0, 0)),
];

#[test]
fn primitives_have_signatures(rt: HostRuntime) -> Result<(), Fail> {
    for (name, width, rule, counts) in USES {
        let mut names = Names::new(rt.alloc());
        let id = names.intern(name.as_bytes())?;
        let design = FilDesign {
            names,
            comps: Vec::new(rt.alloc()),
        };
        match signature(rt.alloc(), &design, id, &[*width]) {
            Ok(sig) => {
                let told = (sig.events.len(), sig.ins.len(), sig.outs.len());
                assert_eq!(rt; (0, told), (*rule, *counts), "at {name}");
            }
            Err(end) => assert_eq!(rt; end, SigEnd::Refused { rule: *rule }, "at {name}"),
        }
    }
    Ok(())
}
