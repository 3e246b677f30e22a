//! Control statements that stand for none.
ghost use Rattle.std.specs.Prelude.{◌≡◌, List, [], if◌then◌else◌};
ghost use Rattle.hw_names.specs.Name.{Text};
ghost use Rattle.cal_ast.specs.Items.{unless_empty};
ghost use Rattle.cal_ast.specs.Tree.{Statement, statement_tree};

use cal_ast::Control;

/// Whether the statement is a `seq` with nothing in it; as a branch or a body that is no statement.
pub fn is_empty_seq(statement: &Control) -> bool
    ensures { (names : List Text) (rest : List Statement) → (if result then [] else rest) ≡ unless_empty (statement_tree names statement.now) rest }
{
    match statement {
        Control::Seq(list) => list.is_empty(),
        Control::Enable(_) | Control::Par(_) | Control::If { .. } => false,
        Control::While { .. } | Control::Invoke { .. } => false,
    }
}
