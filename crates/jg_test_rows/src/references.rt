//! Rows on references: what they name, and who may use them.

ghost use Rattle.jg_test_rows.specs.Lines.{ComesOut, HasText, closed};
ghost use Rattle.jg_test_rows.specs.References as rows;

/// Another thread's local is named before a dead reference, wherever the two stand.
pub fn foreign_before_dead()
    ensures outcomes { ComesOut closed rows.foreign_before_dead }
    ensures journal { HasText closed rows.foreign_before_dead FOREIGN_BEFORE_DEAD.now }
{}

/// The journal of `foreign_before_dead`.
pub const FOREIGN_BEFORE_DEAD: &str = "T1 - AttachCurrentThread = E1.1
T2 - AttachCurrentThread = E2.1
T1 E1.1 NewString [] = L1.1
T2 E2.1 IsSameObject L2.9 L1.1 = deny 5 ForeignLocal
T2 E2.1 IsSameObject L1.1 L2.9 = deny 5 ForeignLocal
T2 E2.1 IsSameObject null L1.9 = deny 5 ForeignLocal
T2 E2.1 IsSameObject L2.9 null = deny 6 DeadReference
T2 E2.1 NewLocalRef L1.1 = deny 5 ForeignLocal
T2 E2.1 DeleteLocalRef L1.1 = deny 5 ForeignLocal
T1 E1.1 GetStringLength L1.1 = 0
";

/// Two references are the same where they name one object, or where both are null.
pub fn same_object()
    ensures outcomes { ComesOut closed rows.same_object }
    ensures journal { HasText closed rows.same_object SAME_OBJECT.now }
{}

/// The journal of `same_object`.
pub const SAME_OBJECT: &str = "T1 - AttachCurrentThread = E1.1
T1 E1.1 IsSameObject null null = true
T1 E1.1 NewString [65] = L1.1
T1 E1.1 NewString [65] = L1.2
T1 E1.1 NewLocalRef L1.1 = L1.3
T1 E1.1 IsSameObject L1.1 L1.3 = true
T1 E1.1 IsSameObject L1.1 L1.2 = false
T1 E1.1 IsSameObject L1.1 null = false
T1 E1.1 IsSameObject null L1.2 = false
";

/// GetObjectRefType takes any reference, live or not.
pub fn kinds_of_references()
    ensures outcomes { ComesOut closed rows.kinds_of_references }
    ensures journal { HasText closed rows.kinds_of_references KINDS_OF_REFERENCES.now }
{}

/// The journal of `kinds_of_references`.
pub const KINDS_OF_REFERENCES: &str = "T1 - AttachCurrentThread = E1.1
T2 - AttachCurrentThread = E2.1
T2 E2.1 NewString [] = L2.1
T1 E1.1 GetObjectRefType null = 0
T1 E1.1 GetObjectRefType L1.1 = 0
T1 E1.1 NewString [] = L1.1
T1 E1.1 GetObjectRefType L1.1 = 1
T2 E2.1 GetObjectRefType L1.1 = 0
T1 E1.1 DeleteLocalRef L1.1 = ok
T1 E1.1 GetObjectRefType L1.1 = 0
";

/// Deleting null does nothing, and what is deleted is dead.
pub fn deleted_twice()
    ensures outcomes { ComesOut closed rows.deleted_twice }
    ensures journal { HasText closed rows.deleted_twice DELETED_TWICE.now }
{}

/// The journal of `deleted_twice`.
pub const DELETED_TWICE: &str = "T1 - AttachCurrentThread = E1.1
T1 E1.1 DeleteLocalRef null = ok
T1 E1.1 NewLocalRef null = null
T1 E1.1 NewString [65,66] = L1.1
T1 E1.1 NewLocalRef L1.1 = L1.2
T1 E1.1 DeleteLocalRef L1.1 = ok
T1 E1.1 DeleteLocalRef L1.1 = deny 6 DeadReference
T1 E1.1 NewLocalRef L1.1 = deny 6 DeadReference
T1 E1.1 GetStringLength L1.2 = 2
T1 E1.1 NewLocalRef L1.2 = L1.3
";

/// A reference that was never made is dead before it is of the wrong kind.
pub fn never_made()
    ensures outcomes { ComesOut closed rows.never_made }
    ensures journal { HasText closed rows.never_made NEVER_MADE.now }
{}

/// The journal of `never_made`.
pub const NEVER_MADE: &str = "T1 - AttachCurrentThread = E1.1
T1 E1.1 GetStringLength G1.1 = deny 6 DeadReference
T1 E1.1 NewLocalRef W1.1 = deny 6 DeadReference
T1 E1.1 DeleteLocalRef G1.1 = deny 6 DeadReference
T1 E1.1 DeleteLocalRef W2.1 = deny 6 DeadReference
T1 E1.1 IsSameObject null G2.1 = deny 6 DeadReference
T1 E1.1 GetObjectRefType G1.1 = 0
T1 E1.1 GetObjectRefType W1.1 = 0
T1 E1.1 NewString [] = L1.1
T1 E1.1 GetStringLength G1.1 = deny 6 DeadReference
";
