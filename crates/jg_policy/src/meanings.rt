//! What the definitions mean, as laws.
ghost use Rattle.jg_policy.specs.Laws.{LinkedMeans, WarnedMeans, OnlyClassesHaveModules, ModuleNumbersTellNames, ClassHasItsName, ClassNumbersTellNames, FieldHasItsName, FieldNumbersTellNames, NativeHasItsName, NativeNumbersTellNames, StatesOneSetup, StatingHasNoFault};

/// A method is linked where some event links it and no later one unlinks its class.
pub fn linked_means()
    ensures { LinkedMeans }
{}

/// A module is warned of where some event warns of it.
pub fn warned_means()
    ensures { WarnedMeans }
{}

/// Classes, and nothing else, have modules.
pub fn only_classes_have_modules()
    ensures { OnlyClassesHaveModules }
{}

/// Modules have equal numbers exactly where their names are equal.
pub fn module_numbers_tell_names()
    ensures { ModuleNumbersTellNames }
{}

/// The number of a class's name is that of a class with this name, and two names with the same
/// number are equal.
pub fn class_numbers_tell_names()
    ensures named { ClassHasItsName }
    ensures one { ClassNumbersTellNames }
{}

/// The same of a class's fields, by name and type.
pub fn field_numbers_tell_names()
    ensures named { FieldHasItsName }
    ensures one { FieldNumbersTellNames }
{}

/// The same of a class's native methods, by name and type.
pub fn native_numbers_tell_names()
    ensures named { NativeHasItsName }
    ensures one { NativeNumbersTellNames }
{}

/// A text states at most one setup, and none where it has a fault.
pub fn text_states_one_setup()
    ensures one { StatesOneSetup }
    ensures faultless { StatingHasNoFault }
{}
