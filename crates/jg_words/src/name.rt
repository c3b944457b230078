//! Names, as operands: of classes, fields, methods, types and libraries.

ghost use Rattle.std.specs.Prelude.{◌≡◌, ◌↔◌, Err, IfOk, IsTrue};
ghost use Rattle.jg_words.specs.Name.{IsName};

use std::alloc::{AllocError, Global};
use std::marker::Model;

/// The most bytes that a name has.
pub const MAX_NAME: usize = 255;

/// Why there is no name.
#[derive(Clone, Copy)]
pub enum NameFault {
    /// The text isn't one.
    NotAName,
    /// Memory ran out.
    NoMemory,
}

/// A name operand, as of a class or a library: 1 to 255 bytes from 0x21 to 0x7E. Contracts see
/// it as its bytes.
#[derive(Drop)]
pub struct Name {
    // One word wide, so that a call with three names, and with it each entry of a journal, is short.
    text: Box<String>,
}

impl Model for Name {
    ghost use Rattle.std.specs.Prelude.{List, ℕ, string_bytes};
    ghost use Rattle.jg_words.specs.Name.{IsName};

    ghost Value = { List ℕ };

    ghost view = { λ a. string_bytes a.text.value };

    ghost invariant = { λ a. IsName (string_bytes a.text.value) };
}

impl Name {
    /// The name that the text is.
    pub fn new(alloc: Global, text: &str) -> Result<Name, NameFault>
        ensures ok { IfOk result (λ name. name ≡ text.now) }
        ensures fits { IfOk result (λ _. IsName text.now) }
        ensures not_a_name { (result ≡ Err NameFault.NotAName) ↔ ¬ IsName text.now }
    {
        if !is_name(text) {
            return Err(NameFault::NotAName);
        }
        let Ok(text) = String::from_str(alloc, text) else {
            return Err(NameFault::NoMemory);
        };
        match Box::new(alloc, text) {
            Ok(text) => Ok(Name { text }),
            Err(_) => Err(NameFault::NoMemory),
        }
    }

    /// Its text.
    pub fn as_str(&self) -> &str
        ensures bytes { result.now ≡ self.now }
        ensures valid { IsName self.now }
    {
        let _text = &self.text;
        self.text.as_str()
    }

    /// An equal name. Fails only for want of memory.
    pub fn try_copy(&self) -> Result<Name, AllocError>
        ensures { IfOk result (λ copy. copy ≡ self.now) }
    {
        let text = self.text.clone()?;
        Ok(Name { text })
    }
}

fn is_name(text: &str) -> bool
    ensures { IsTrue result ↔ IsName text.now }
{
    text.len() >= 1
        && text.len() <= MAX_NAME
        && text.as_bytes().iter().all(|b| *b >= 0x21 && *b <= 0x7E)
}

impl PartialEq for Name {
    ghost use Rattle.std.specs.Cmp.Lexicographic.{pointwise, nat_list_eq_equiv};
    ghost use Rattle.std.specs.Cmp.{partial_equiv_from_equiv};
    ghost use Rattle.std.specs.Prelude.{nat_eq};

    ghost eq = { pointwise nat_eq };

    ghost laws = { partial_equiv_from_equiv nat_list_eq_equiv };

    fn eq(&self, other: &Name) -> bool {
        self.as_str() == other.as_str()
    }
}

impl Eq for Name {
    ghost use Rattle.std.specs.Cmp.Lexicographic.{nat_list_eq_equiv};

    ghost laws = { nat_list_eq_equiv };
}
