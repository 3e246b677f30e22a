//! Ports and sources, from terminals.
ghost use Rattle.cal_ast.specs.Tree.{port_tree};
ghost use Rattle.cal_parse.specs.inside.Reading.{port_at, source_at};
ghost use Rattle.net_core.specs.Guard.{source_tree};
ghost use Rattle.hw_grammar.specs.Reading.{GivesNamed};

use cal_ast::CalPort;
use hw_grammar::{ReadEnd, Sort, Terminal, read_name, read_one, starts};
use net_core::Src;

/// `NAME ["." NAME]`
#[tactic(auto, unfolding(crate::specs::inside::Reading::port_at))]
pub fn read_port(ts: &[Terminal]) -> Result<(CalPort, &[Terminal]), ReadEnd<'_>>
    ensures { GivesNamed (λ names x. (port_tree names x.0, x.1.now)) result (λ names. port_at names ts.now) }
{
    let (name, rest) = read_name(ts)?;
    if starts(rest, Sort::Dot) {
        let (_, rest) = read_one(rest, Sort::Dot)?;
        let (port, rest) = read_name(rest)?;
        let cell = Some(name);
        Ok((CalPort { cell, port }, rest))
    } else {
        let port = CalPort {
            cell: None,
            port: name,
        };
        Ok((port, rest))
    }
}

/// A port or a literal.
#[tactic(auto, unfolding(crate::specs::inside::Reading::source_at))]
pub fn read_source(ts: &[Terminal]) -> Result<(Src<CalPort>, &[Terminal]), ReadEnd<'_>>
    ensures { GivesNamed (λ names x. (source_tree (port_tree names) x.0, x.1.now)) result (λ names. source_at names ts.now) }
{
    if starts(ts, Sort::Name) {
        let (port, rest) = read_port(ts)?;
        Ok((Src::Port(port), rest))
    } else {
        let (literal, rest) = read_one(ts, Sort::Literal)?;
        let source = Src::Lit {
            width: literal.width,
            value: literal.value,
        };
        Ok((source, rest))
    }
}
