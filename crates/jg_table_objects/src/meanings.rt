//! What the definitions mean, each as the contract of a function that does nothing.

ghost use Rattle.jg_table_objects.specs.Laws.{MarksKeep, ToldMeans, WentMeans};

/// The class and the length of an object are told exactly where it is there and no class object.
pub fn told_means()
    ensures { ToldMeans }
{}

/// Once a virtual machine let the objects of a list go, what is there is what was there but for these; class
/// objects stay. No number and nothing that is known of an object changes.
pub fn went_means()
    ensures { WentMeans }
{}

/// Marks that come, go or are set change nothing that the store tells of its objects.
pub fn marks_keep()
    ensures { MarksKeep }
{}
