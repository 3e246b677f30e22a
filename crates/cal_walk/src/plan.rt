//! Control without its syntax.
ghost use Rattle.std.specs.Prelude.{◌≡◌, ◌≤◌, ℕ, true, false, length, slice_get, take, Some};
ghost use Rattle.cal_ast.specs.Actors.{Actor};
ghost use Rattle.cal_ast.specs.Tree.{PortName};
ghost use Rattle.cal_walk.specs.Left.{is_over, are_over};
ghost use Rattle.cal_walk.specs.Trees.{plan_tree, slice_trees};
ghost use Rattle.cal_walk.specs.declared.plan.Plan as code;

/// A plan of control. Actors and conditions are numbers in the lists of their component.
#[derive(Drop)]
pub enum Plan {
    /// The actor acts until it is done.
    Enables(usize),
    /// One plan after another.
    InTurn(Vec<Plan>),
    /// All plans at once, until the last has ended.
    AtOnce(Vec<Plan>),
    /// One of two plans, as the condition says, in a row in which this actor acts, if there is one.
    Chooses {
        condition: usize,
        by: Option<usize>,
        on: Box<Plan>,
        off: Box<Plan>,
    },
    /// The body again and again, as long as the condition says so.
    Repeats {
        condition: usize,
        by: Option<usize>,
        body: Box<Plan>,
    },
}

/// Whether the plan takes no row.
#[cycle(is_over)]
pub fn is_over(plan: &Plan) -> bool
    ensures { (f : ℕ → Actor) (h : ℕ → PortName) → result ≡ is_over (plan_tree f h plan.now) }
{
    match plan {
        Plan::Enables(_) => false,
        Plan::InTurn(plans) => are_over(plans),
        Plan::AtOnce(plans) => are_over(plans),
        Plan::Chooses { .. } => false,
        Plan::Repeats { .. } => false,
    }
}

/// Whether none of the plans takes a row.
#[cycle(is_over)]
pub fn are_over(plans: &[Plan]) -> bool
    ensures { (f : ℕ → Actor) (h : ℕ → PortName) → result ≡ are_over (slice_trees f h plans.now) }
{
    for plan in plans {
        if !is_over(plan) {
            return false;
        }
    }
    true
}

/// The number of the first of the plans that takes a row; where none does, how many there are.
pub fn first_lasting(plans: &[Plan]) -> usize
    ensures within { result ≤ length plans.now }
    ensures over { (f : ℕ → Actor) (h : ℕ → PortName) → are_over (slice_trees f h (take result plans.now)) ≡ true }
    ensures lasts { (f : ℕ → Actor) (h : ℕ → PortName) (plan : code.Plan) → slice_get plans.now result ≡ Some plan → is_over (plan_tree f h plan) ≡ false }
{
    for (number, plan) in plans.iter().enumerate() {
        if !is_over(plan) {
            return number;
        }
    }
    plans.len()
}
