//! Names, which take memory.

ghost use Rattle.std.specs.Prelude.{◌≡◌, IfOk, IfErr};
ghost use Rattle.jg_words.specs.Name.{IsName};
ghost use Rattle.jg_text.specs.Kinds.{Name as name_kind};
ghost use Rattle.jg_text.specs.Words.{name_text};
ghost use Rattle.jg_text.specs.Pieces.{IsKindFault};

use crate::fault::ScriptFault;
use jg_words::{Name, NameFault};
use std::alloc::Global;
use std::str;

/// The name that the text spells.
pub fn read_name(alloc: Global, text: &[u8]) -> Result<Name, ScriptFault>
    ensures ok { IfOk result (λ name. (text.now ≡ name_text name) × IsName name) }
    ensures err { IfErr result (IsKindFault name_kind text.now) }
{
    let Ok(text) = str::from_utf8(text) else {
        return Err(ScriptFault::BadOperand);
    };
    match Name::new(alloc, text) {
        Ok(name) => Ok(name),
        Err(NameFault::NotAName) => Err(ScriptFault::BadOperand),
        Err(NameFault::NoMemory) => Err(ScriptFault::NoMemory),
    }
}
