//! What holds whatever happened, each as the contract of a function that does nothing.

ghost use Rattle.jg_witness.specs.Laws.{HandedMeans, LapsedMeansNothing, NamelessIsDead, NoWordRevived, WordsAnsweredApart, WordsPassStill};

/// A word whose reference ended unseen means nothing.
pub fn lapsed_means_nothing()
    ensures { LapsedMeansNothing }
{}

/// A word that was handed out just now means what it was handed out for.
pub fn handed_means()
    ensures { HandedMeans }
{}

/// A word that means nothing means nothing until it is handed out anew.
pub fn no_word_revived()
    ensures { NoWordRevived }
{}

/// What a word that means nothing is asked as names nothing.
pub fn nameless_is_dead()
    ensures { NamelessIsDead }
{}

/// A question about words that passed passes still, until one of them is handed out anew or a fact unsettles it.
pub fn words_pass_still()
    ensures { WordsPassStill }
{}

/// A question about words is answered by what its thread did, and by what those did who were handed its references:
/// whatever the machine does of other threads meanwhile, and in which order.
pub fn words_answered_apart()
    ensures { WordsAnsweredApart }
{}
