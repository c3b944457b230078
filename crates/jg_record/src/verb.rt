//! The words of facts.

ghost use Rattle.std.specs.Prelude.{◌≡◌};
ghost use Rattle.jg_record.specs.Words as words;

/// Of which kind a fact is, as its word says.
#[derive(Clone, Copy)]
pub enum Verb {
    Begins,
    Ends,
    Enters,
    Leaves,
    Pushed,
    Popped,
    Ensured,
    Raised,
    Calmed,
    Got,
    Lost,
    Lent,
    Gave,
    Owns,
    Freed,
    Met,
    Gone,
    Linked,
    Unlinked,
    Warned,
    Local,
    Pending,
    Length,
    Bounds,
}

/// The kind of the facts with this word. Those that come often are looked for first.
pub fn verb_named(word: &[u8]) -> Option<Verb>
    ensures { result ≡ words.verb_named word.now }
{
    if word == b"got".as_slice() {
        return Some(Verb::Got);
    }
    if word == b"lost".as_slice() {
        return Some(Verb::Lost);
    }
    if word == b"met".as_slice() {
        return Some(Verb::Met);
    }
    if word == b"gone".as_slice() {
        return Some(Verb::Gone);
    }
    if word == b"lent".as_slice() {
        return Some(Verb::Lent);
    }
    if word == b"gave".as_slice() {
        return Some(Verb::Gave);
    }
    if word == b"owns".as_slice() {
        return Some(Verb::Owns);
    }
    if word == b"freed".as_slice() {
        return Some(Verb::Freed);
    }
    verb_of_calls(word)
}

/// The words of what begins and ends with calls.
fn verb_of_calls(word: &[u8]) -> Option<Verb>
    ensures { result ≡ words.verb_of_calls word.now }
{
    if word == b"enters".as_slice() {
        return Some(Verb::Enters);
    }
    if word == b"leaves".as_slice() {
        return Some(Verb::Leaves);
    }
    if word == b"pushed".as_slice() {
        return Some(Verb::Pushed);
    }
    if word == b"popped".as_slice() {
        return Some(Verb::Popped);
    }
    if word == b"ensured".as_slice() {
        return Some(Verb::Ensured);
    }
    if word == b"raised".as_slice() {
        return Some(Verb::Raised);
    }
    if word == b"calmed".as_slice() {
        return Some(Verb::Calmed);
    }
    verb_of_run(word)
}

/// The words of what comes seldom.
fn verb_of_run(word: &[u8]) -> Option<Verb>
    ensures { result ≡ words.verb_of_run word.now }
{
    if word == b"begins".as_slice() {
        return Some(Verb::Begins);
    }
    if word == b"ends".as_slice() {
        return Some(Verb::Ends);
    }
    if word == b"linked".as_slice() {
        return Some(Verb::Linked);
    }
    if word == b"unlinked".as_slice() {
        return Some(Verb::Unlinked);
    }
    if word == b"warned".as_slice() {
        return Some(Verb::Warned);
    }
    if word == b"local".as_slice() {
        return Some(Verb::Local);
    }
    if word == b"pending".as_slice() {
        return Some(Verb::Pending);
    }
    if word == b"length".as_slice() {
        return Some(Verb::Length);
    }
    if word == b"bounds".as_slice() {
        return Some(Verb::Bounds);
    }
    None
}
