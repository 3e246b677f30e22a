//! Values of which a port takes the one that is on.
ghost use Rattle.std.specs.Prelude.{◌≡◌, ◌+◌, ◌<◌, ◌≤◌, true, length, All, if◌then◌else◌};
ghost use Rattle.hw_prims.specs.Meaning.{bit};
ghost use Rattle.net_core.specs.Circuit.{settled};
ghost use Rattle.net_steps.specs.Operations.{AreBelowIn, has_two, part_of, values_on};
ghost use Rattle.net_steps.specs.declared.choice.Choice.{Choice as ChoiceType};

/// An assignment by its slots: it gives the value in one where the other is 1.
#[derive(Clone, Copy, Debug)]
pub struct Choice {
    pub on: u32,
    pub value: u32,
}

/// The value of the one that is on; 0 where none is, or several are.
#[inline(always)]
pub fn only(choices: &[Choice], slots: &[u64]) -> u64
    requires { All (λ (choice : ChoiceType). (choice.on < length slots.now) × (choice.value < length slots.now)) choices.now }
    ensures { result ≡ settled (values_on slots.now choices.now) }
{
    let mut count = 0usize;
    let mut values = 0u64;
    for choice in choices {
        let on = slots[choice.on as usize] == 1;
        count += on as usize;
        values |= if_on(on, slots[choice.value as usize]);
    }
    if_on(count == 1, values)
}

/// 1 where two or more are on, else 0.
#[inline(always)]
pub fn several(choices: &[Choice], slots: &[u64]) -> u64
    requires { All (λ (choice : ChoiceType). (choice.on < length slots.now) × (choice.value < length slots.now)) choices.now }
    ensures { result ≡ bit (has_two (values_on slots.now choices.now)) }
{
    let mut count = 0usize;
    for choice in choices {
        count += (slots[choice.on as usize] == 1) as usize;
    }
    (count >= 2) as u64
}

/// A value, or 0 where it is not on.
#[inline(always)]
fn if_on(on: bool, value: u64) -> u64
    ensures { result ≡ (if on then value else 0) }
{
    if on { value } else { 0 }
}

/// So many of the choices, from a number on.
#[inline(always)]
pub fn part(choices: &[Choice], from: u32, count: u32) -> &[Choice]
    requires { from + count ≤ length choices.now }
    ensures { result.now ≡ part_of choices.now from count }
{
    &choices[from as usize..from as usize + count as usize]
}

/// Whether so many choices are there, from a number on, and their slots lie below this one.
pub fn are_below_in(choices: &[Choice], slot: usize, from: u32, count: u32) -> bool
    ensures { result ≡ true → AreBelowIn choices.now slot from count }
{
    if from as usize + count as usize > choices.len() {
        return false;
    }
    part(choices, from, count).iter().all(|choice| (choice.on as usize) < slot
        && (choice.value as usize) < slot)
}
