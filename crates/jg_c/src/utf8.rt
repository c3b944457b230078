//! Whether bytes are a text, as JNI spells texts.

ghost use Rattle.std.specs.Prelude.{◌≡◌, ◌⊎◌, ℕ, List, pos};
ghost use Rattle.jg_table_heap.specs.Spelling.{IsSpelt};

use jg_table_heap::are_mutf8;

/// Answers 1 where the bytes are modified UTF-8 (JNI Specification, chapter 3, "Modified UTF-8 Strings"), and 0 where
/// they aren't. It takes no memory.
#[unsafe(no_mangle)]
pub extern "C" fn jg_is_utf8(text: &[u8]) -> i32
    ensures yes { result ≡ pos 1 → ((units : List ℕ) × IsSpelt units text.now) }
    ensures no { result ≡ pos 0 → (units : List ℕ) → IsSpelt units text.now → ⊥ }
    ensures numbers { (result ≡ pos 1) ⊎ (result ≡ pos 0) }
{
    if are_mutf8(text) { 1 } else { 0 }
}
