//! Steps that say by their type what kind they are of.
ghost use Rattle.net_steps.specs.Kinds.{add_of, both_of, but_not_of, choose_of, equal_of, mixed_of, pick_of};

use crate::operation::Operation;

/// One of two, by whether `on` is true.
#[derive(Clone, Copy)]
pub struct ChooseStep {
    pub on: u32,
    pub value: u32,
    pub other: u32,
}

/// `value` where `first` alone is true, `other` where `second` alone is, else 0.
#[derive(Clone, Copy)]
pub struct PickStep {
    pub first: u32,
    pub value: u32,
    pub second: u32,
    pub other: u32,
}

/// 1 where both are true, else 0.
#[derive(Clone, Copy)]
pub struct BothStep {
    pub a: u32,
    pub b: u32,
}

/// 1 where `a` is true and `b` is not, else 0.
#[derive(Clone, Copy)]
pub struct ButNotStep {
    pub a: u32,
    pub b: u32,
}

/// 1 where they are equal, else 0.
#[derive(Clone, Copy)]
pub struct EqualStep {
    pub a: u32,
    pub b: u32,
}

/// The sum, by the mask.
#[derive(Clone, Copy)]
pub struct AddStep {
    pub a: u32,
    pub b: u32,
    pub mask: u64,
}

/// A step of one kind, or of any.
pub trait Step: Drop {
    ghost use Rattle.std.specs.Prelude.{◌≡◌, IfSome};
    ghost use Rattle.net_steps.specs.declared.operation.Operation.{Operation};

    ghost meaning: { Self → Operation };

    /// The step with its kind beside it.
    fn operation(&self) -> Operation
        ensures { result ≡ meaning self.now };

    /// The step without its kind, where it is of this one.
    fn of(step: &Operation) -> Option<Self>
        ensures { IfSome result (λ one. meaning one ≡ step.now) };
}

impl Step for Operation {
    ghost meaning = { mixed_of };

    #[inline(always)]
    fn operation(&self) -> Operation {
        *self
    }

    fn of(step: &Operation) -> Option<Operation> {
        Some(*step)
    }
}

impl Step for ChooseStep {
    ghost meaning = { choose_of };

    #[inline(always)]
    fn operation(&self) -> Operation {
        Operation::Choose {
            on: self.on,
            value: self.value,
            other: self.other,
        }
    }

    fn of(step: &Operation) -> Option<ChooseStep> {
        match *step {
            Operation::Choose { on, value, other } => Some(ChooseStep { on, value, other }),
            _ => None,
        }
    }
}

impl Step for PickStep {
    ghost meaning = { pick_of };

    #[inline(always)]
    fn operation(&self) -> Operation {
        Operation::Pick {
            first: self.first,
            value: self.value,
            second: self.second,
            other: self.other,
        }
    }

    fn of(step: &Operation) -> Option<PickStep> {
        match *step {
            Operation::Pick {
                first,
                value,
                second,
                other,
            } => Some(PickStep {
                first,
                value,
                second,
                other,
            }),
            _ => None,
        }
    }
}

impl Step for BothStep {
    ghost meaning = { both_of };

    #[inline(always)]
    fn operation(&self) -> Operation {
        Operation::Both {
            a: self.a,
            b: self.b,
        }
    }

    fn of(step: &Operation) -> Option<BothStep> {
        match *step {
            Operation::Both { a, b } => Some(BothStep { a, b }),
            _ => None,
        }
    }
}

impl Step for ButNotStep {
    ghost meaning = { but_not_of };

    #[inline(always)]
    fn operation(&self) -> Operation {
        Operation::ButNot {
            a: self.a,
            b: self.b,
        }
    }

    fn of(step: &Operation) -> Option<ButNotStep> {
        match *step {
            Operation::ButNot { a, b } => Some(ButNotStep { a, b }),
            _ => None,
        }
    }
}

impl Step for EqualStep {
    ghost meaning = { equal_of };

    #[inline(always)]
    fn operation(&self) -> Operation {
        Operation::Equal {
            a: self.a,
            b: self.b,
        }
    }

    fn of(step: &Operation) -> Option<EqualStep> {
        match *step {
            Operation::Equal { a, b } => Some(EqualStep { a, b }),
            _ => None,
        }
    }
}

impl Step for AddStep {
    ghost meaning = { add_of };

    #[inline(always)]
    fn operation(&self) -> Operation {
        Operation::Add {
            a: self.a,
            b: self.b,
            mask: self.mask,
        }
    }

    fn of(step: &Operation) -> Option<AddStep> {
        match *step {
            Operation::Add { a, b, mask } => Some(AddStep { a, b, mask }),
            _ => None,
        }
    }
}
