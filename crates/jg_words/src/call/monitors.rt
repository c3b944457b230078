//! Calls that enter and exit monitors, with their operands.

ghost use Rattle.std.specs.Prelude.{◌≡◌};
ghost use Rattle.jg_words.specs.Call.{monitors_fun};

use crate::fun::monitors::MonitorsFun;
use crate::reference::Ref;

/// Monitors (JNI Specification, chapter 4, "Monitor Operations").
#[derive(PartialEq, Eq, Drop)]
pub enum MonitorsCall {
    MonitorEnter { of: Ref },
    MonitorExit { of: Ref },
}

impl MonitorsCall {
    /// Its function.
    pub fn fun(&self) -> MonitorsFun
        ensures { result ≡ monitors_fun self.now }
    {
        match self {
            MonitorsCall::MonitorEnter { .. } => MonitorsFun::MonitorEnter,
            MonitorsCall::MonitorExit { .. } => MonitorsFun::MonitorExit,
        }
    }

    /// An equal call.
    pub fn copy(&self) -> MonitorsCall
        ensures { result ≡ self.now }
    {
        match self {
            MonitorsCall::MonitorEnter { of } => MonitorsCall::MonitorEnter { of: *of },
            MonitorsCall::MonitorExit { of } => MonitorsCall::MonitorExit { of: *of },
        }
    }
}
