//! Numbers for texts, of which the first are names.
ghost use Rattle.std.specs.Prelude.{◌≡◌, ◌<◌, ◌++◌, [], Some, Contains, length, slice_get, IfNone, IfOk, IfSome};
ghost use Rattle.hw_names.specs.Name.{AreDistinct, KeepsTexts};
ghost use Rattle.hw_texts.specs.Texts.{TextList};

use hw_bits::Memory;
use hw_names::{NameId, Names};
use std::marker::Model;

/// Names, and after them other texts by first appearance. A text's number is its place.
#[derive(Drop)]
pub struct Texts<'a> {
    names: &'a Names,
    others: Names,
}

/// The text of this number.
pub fn text_at(names: &Names, number: usize) -> &[u8]
    requires { number < length names.now }
    ensures { slice_get names.now number ≡ Some result.now }
{
    let _count = names.len();
    names.text(NameId(number as u32))
}

impl<'a> Model for Texts<'a> {
    ghost use Rattle.std.specs.Prelude.{◌++◌};
    ghost use Rattle.hw_names.specs.Name.{AreDistinct};
    ghost use Rattle.hw_texts.specs.Texts.{TextList};

    ghost Value = { TextList };

    ghost view = { λ t. record { names = t.names.now; all = t.names.now ++ t.others } };

    ghost invariant = { λ t. AreDistinct (t.names.now ++ t.others) };
}

impl<'a> Texts<'a> {
    /// The names alone.
    pub fn new(names: &'a Names) -> Texts<'a>
        ensures { result ≡ record { names = names.now; all = names.now } }
    {
        // They are distinct.
        let _count = names.len();
        Texts {
            names,
            others: names.beside(),
        }
    }

    /// No names, for some that are made of these texts.
    pub fn beside(&self) -> Names
        ensures { result ≡ [] }
    {
        self.names.beside()
    }

    /// The number of a text; one that has none goes last.
    pub fn number(&mut self, text: &[u8]) -> Result<usize, Memory>
        ensures number { IfOk result (λ n. slice_get self.new.all n ≡ Some text.now) }
        ensures names { self.new.names ≡ self.old.names }
        ensures kept { KeepsTexts self.old.all self.new.all }
    {
        if let Some(id) = self.names.find(text) {
            return Ok(id.0 as usize);
        }
        if self.others.len() >= u32::MAX as usize {
            return Err(Memory);
        }
        let id = self.others.intern(text)?;
        Ok(self.names.len() + id.0 as usize)
    }

    /// The number of a text, if it has one.
    pub fn find(&self, text: &[u8]) -> Option<usize>
        ensures some { IfSome result (λ n. slice_get self.now.all n ≡ Some text.now) }
        ensures none { IfNone result (¬ Contains self.now.all text.now) }
    {
        if let Some(id) = self.names.find(text) {
            return Some(id.0 as usize);
        }
        match self.others.find(text) {
            Some(id) => Some(self.names.len() + id.0 as usize),
            None => None,
        }
    }

    /// The number of a name, if it is one of the names.
    pub fn named(&self, name: &[u8]) -> Option<usize>
        ensures some { IfSome result (λ n. slice_get self.now.names n ≡ Some name.now) }
        ensures none { IfNone result (¬ Contains self.now.names name.now) }
    {
        let id = self.names.find(name)?;
        Some(id.0 as usize)
    }

    /// How many names there are.
    pub fn names(&self) -> usize
        ensures { result ≡ length self.now.names }
    {
        self.names.len()
    }

    /// Names have their own numbers among all texts.
    pub fn begin_with_names(&self)
        ensures { KeepsTexts self.now.names self.now.all }
    {
        let _names = &self.names;
    }

    /// The text of a number.
    pub fn text(&self, number: usize) -> &[u8]
        requires { number < length self.now.all }
        ensures { slice_get self.now.all number ≡ Some result.now }
    {
        let count = self.names.len();
        if number < count {
            return text_at(self.names, number);
        }
        text_at(&self.others, number - count)
    }

    /// The texts are distinct.
    pub fn are_distinct(&self)
        ensures { AreDistinct self.now.all }
    {
        let _names = &self.names;
    }
}
