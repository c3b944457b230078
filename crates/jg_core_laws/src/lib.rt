//! What a core's answer to a question stands on. Each law is the contract of a function that does nothing.
#![tactic(auto)]

ghost use Rattle.jg_core_laws.specs.Apart.{AnsweredApart};
ghost use Rattle.jg_core_laws.specs.Laws.{PassesStill, BriefCanBe, BriefIsUnseen, BriefLeavesAll, BriefIsPassedBy, BriefMayEnd};
ghost use Rattle.jg_core_laws.specs.Later.{BriefIsForgotten, BriefIsOutlived};

/// A question that passed passes still, until a fact unsettles it: one of its own thread that changes what the thread
/// may call, or one that ends a reference among its operands.
pub fn passes_still()
    ensures { PassesStill }
{}

/// A question about references is answered by what its thread did, and by what those did who were handed its references.
/// So what other threads do meanwhile, and in which order, makes no difference to its answer.
pub fn answered_apart()
    ensures { AnsweredApart }
{}

/// A local reference can end at once wherever it can be handed out.
pub fn brief_can_be()
    ensures { BriefCanBe }
{}

/// One that ended at once is as one that was never handed out: no verdict differs but of a question that names it (JNI
/// Specification, chapter 2, "Local References").
pub fn brief_is_unseen()
    ensures { BriefIsUnseen }
{}

/// Nor does anything differ of what is known, but the number of its thread's next reference.
pub fn brief_leaves_all()
    ensures { BriefLeavesAll }
{}

/// So what can be told next is what could be told without it, but of the reference itself.
pub fn brief_is_passed_by()
    ensures { BriefIsPassedBy }
{}

/// Its deletion passes, where the thread may call DeleteLocalRef at all.
pub fn brief_may_end()
    ensures { BriefMayEnd }
{}

/// Whatever is told later, all is judged as if it had never been handed out. Its thread's later references have numbers
/// that are greater by one.
pub fn brief_is_forgotten()
    ensures { BriefIsForgotten }
{}

/// And whatever could be told can be told.
pub fn brief_is_outlived()
    ensures { BriefIsOutlived }
{}
