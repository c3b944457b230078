//! A monitor that another thread owns: each of the turns is answered as busy.

use super::play_at;
use super::schedule::{Event, Hold, Schedule};
use std::test::Fail;

const SCRIPT: &str = "T1 - AttachCurrentThread
T1 E1.1 NewString []
T1 E1.1 NewGlobalRef L1.1
T1 E1.1 MonitorEnter G1.2
T1 E1.1 MonitorExit G1.2
T2 - AttachCurrentThread
T2 E2.1 MonitorEnter G1.2
T2 E2.1 ExceptionCheck
";

/// The second thread begins when the first has the monitor, and the first leaves it when the second has played all its
/// lines.
const HOLDS: [Hold; 2] = [
    Hold(2, 1, Event::Receipt(1, 4)),
    Hold(1, 5, Event::Receipt(2, 5)),
];

const TOLD: &str = "T1 - AttachCurrentThread = E1.1
T1 E1.1 NewString [] = L1.1
T1 E1.1 NewGlobalRef L1.1 = G1.2
T1 E1.1 MonitorEnter G1.2 = ok
T2 - AttachCurrentThread = E2.1
T2 E2.1 MonitorEnter G1.2 = busy
T2 E2.1 MonitorEnter G1.2 = busy
T2 E2.1 MonitorEnter G1.2 = busy
T2 E2.1 ExceptionCheck = false
T1 E1.1 MonitorExit G1.2 = ok
";

/// A monitor that stays another thread's is asked for as often as there are turns, here 3, of which the gate is told,
/// and then the worker goes on with its next line.
#[test]
fn a_busy_monitor_is_tried_three_times(rt: HostRuntime) -> Result<(), Fail> {
    let gate = Schedule::new(rt.alloc(), &HOLDS)?;
    let told = play_at(&rt, rt.alloc(), SCRIPT, 100, 3, &gate)?;
    assert!(rt; told.journal.as_str() == TOLD && !gate.has_given_up());
    assert_eq!(rt; gate.turns(), 23);
    Ok(())
}
