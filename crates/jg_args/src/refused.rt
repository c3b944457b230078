//! At which of its words a command line is refused.

ghost use Rattle.std.specs.Prelude.{◌≡◌, ◌<◌, IfOk, IfSome, is_some, length};
ghost use Rattle.std.specs.List.{list_any};
ghost use Rattle.jg_args.specs.Words.{is_explain};

use crate::asked::ArgsFault;
use crate::words::read_words;
use std::alloc::{AllocError, Global};

/// What may be missing behind the first words of a command line: nothing, an option's value or a file, both, or the
/// setup of a migration.
const ENDINGS: [&[&str]; 4] = [&[], &["1"], &["1", "1"], &["--setup", "1"]];

fn is_explain(word: &str) -> bool
    ensures { result ≡ is_explain word.now }
{
    word == "--explain" || word.as_bytes().starts_with(b"--explain=")
}

fn has_explain(words: &[&str]) -> bool
    ensures { result ≡ list_any (λ word. is_explain word.now) words.now }
{
    words.iter().any(|word| is_explain(*word))
}

fn is_accepted(alloc: Global, first: &[&str], ending: &[&str]) -> Result<bool, AllocError> {
    let mut whole = Vec::new(alloc);
    whole.extend_from_slice(first)?;
    whole.extend_from_slice(ending)?;
    match read_words(alloc, whole.as_slice()) {
        Ok(_) | Err(ArgsFault::Help) => Ok(true),
        Err(ArgsFault::Refused) => Ok(false),
        Err(ArgsFault::NoMemory) => Err(AllocError),
    }
}

/// Whether a command line begins with these words.
fn may_go_on(alloc: Global, first: &[&str]) -> Result<bool, AllocError> {
    for ending in ENDINGS {
        if is_accepted(alloc, first, ending)? {
            return Ok(true);
        }
    }
    Ok(false)
}

/// Of words that [`read_words`] refuses, the place, from 0, of the word at which they are refused: the first that no
/// command line has behind the words before it, or the last where something is missing. `None` where `--explain`
/// isn't among the words. Fails only for want of memory.
pub fn refused_word(alloc: Global, words: &[&str]) -> Result<Option<usize>, AllocError>
    ensures within { IfOk result (λ place. IfSome place (λ n. n < length words.now)) }
    ensures asked { IfOk result (λ place. is_some place ≡ list_any (λ word. is_explain word.now) words.now) }
{
    let Some(last) = words.len().checked_sub(1) else {
        return Ok(None);
    };
    if !has_explain(words) {
        return Ok(None);
    }
    for place in 0..last {
        let (first, _) = words.split_at(place + 1);
        if !may_go_on(alloc, first)? {
            return Ok(Some(place));
        }
    }
    Ok(Some(last))
}
