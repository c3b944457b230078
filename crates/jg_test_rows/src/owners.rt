//! Rows on monitors.

ghost use Rattle.jg_test_rows.specs.Lines.{ComesOut, HasText, closed};
ghost use Rattle.jg_test_rows.specs.Monitors as rows;

/// A monitor is entered again by its owner alone, and is free after as many exits.
pub fn monitors()
    ensures outcomes { ComesOut closed rows.monitors }
    ensures journal { HasText closed rows.monitors MONITORS.now }
{}

/// The journal of `monitors`.
pub const MONITORS: &str = "T1 - AttachCurrentThread = E1.1
T2 - AttachCurrentThread = E2.1
T1 E1.1 NewString [] = L1.1
T1 E1.1 NewGlobalRef L1.1 = G1.2
T1 E1.1 MonitorEnter L1.1 = ok
T1 E1.1 MonitorEnter G1.2 = ok
T2 E2.1 MonitorEnter G1.2 = busy
T1 E1.1 MonitorExit G1.2 = ok
T2 E2.1 MonitorEnter G1.2 = busy
T1 E1.1 MonitorExit G1.2 = ok
T2 E2.1 MonitorEnter G1.2 = ok
T1 E1.1 MonitorExit G1.2 = deny 14 NotOwner
T2 - DetachCurrentThread = ok
T1 E1.1 MonitorEnter G1.2 = ok
";

/// A thread's detachment frees the monitors that it owns.
pub fn busy_until_detached()
    ensures outcomes { ComesOut closed rows.busy_until_detached }
    ensures journal { HasText closed rows.busy_until_detached BUSY_UNTIL_DETACHED.now }
{}

/// The journal of `busy_until_detached`.
pub const BUSY_UNTIL_DETACHED: &str = "T1 - AttachCurrentThread = E1.1
T2 - AttachCurrentThread = E2.1
T1 E1.1 NewString [] = L1.1
T1 E1.1 NewGlobalRef L1.1 = G1.2
T1 E1.1 MonitorEnter G1.2 = ok
T1 E1.1 MonitorEnter G1.2 = ok
T2 E2.1 MonitorEnter G1.2 = busy
T1 - DetachCurrentThread = ok
T2 E2.1 MonitorEnter G1.2 = ok
T2 E2.1 MonitorExit G1.2 = ok
T2 E2.1 MonitorExit G1.2 = deny 14 NotOwner
T2 E2.1 MonitorEnter null = deny 8 NullReference
T2 E2.1 MonitorExit L2.1 = deny 6 DeadReference
";
