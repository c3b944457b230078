//! Calls on the pending exception, with their operands.

ghost use Rattle.std.specs.Prelude.{◌≡◌};
ghost use Rattle.jg_words.specs.Call.{exceptions_fun};

use crate::fun::exceptions::ExceptionsFun;
use crate::reference::Ref;

/// Exceptions (JNI Specification, chapter 4, "Exceptions").
#[derive(PartialEq, Eq, Drop)]
pub enum ExceptionsCall {
    Throw { exception: Ref },
    ExceptionOccurred,
    ExceptionDescribe,
    ExceptionClear,
    ExceptionCheck,
}

impl ExceptionsCall {
    /// Its function.
    pub fn fun(&self) -> ExceptionsFun
        ensures { result ≡ exceptions_fun self.now }
    {
        match self {
            ExceptionsCall::Throw { .. } => ExceptionsFun::Throw,
            ExceptionsCall::ExceptionOccurred => ExceptionsFun::ExceptionOccurred,
            ExceptionsCall::ExceptionDescribe => ExceptionsFun::ExceptionDescribe,
            ExceptionsCall::ExceptionClear => ExceptionsFun::ExceptionClear,
            ExceptionsCall::ExceptionCheck => ExceptionsFun::ExceptionCheck,
        }
    }

    /// An equal call.
    pub fn copy(&self) -> ExceptionsCall
        ensures { result ≡ self.now }
    {
        match self {
            ExceptionsCall::Throw { exception } => ExceptionsCall::Throw {
                exception: *exception,
            },
            ExceptionsCall::ExceptionOccurred => ExceptionsCall::ExceptionOccurred,
            ExceptionsCall::ExceptionDescribe => ExceptionsCall::ExceptionDescribe,
            ExceptionsCall::ExceptionClear => ExceptionsCall::ExceptionClear,
            ExceptionsCall::ExceptionCheck => ExceptionsCall::ExceptionCheck,
        }
    }
}
