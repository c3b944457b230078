//! Which entries look as if they made or ended what is traced. Nothing rests on this: what is suspected is
//! asked for, and where too little is suspected the answer isn't told by what was seen.

use crate::traces::Trace;
use jg_breaches::Condition;
use jg_lists::by_maker::{ByMaker, add, find};
use jg_words::{
    BufId, BuffersCall, Call, Entry, FramesCall, Kind, Ref, RefsCall, Tid, Value, VmCall,
};
use std::alloc::{AllocError, Allocator, Global};

/// What a thread has on its stack of frames.
#[derive(Clone, Copy, PartialEq, Eq)]
enum Layer {
    /// A frame that it pushed.
    Frame,
    /// The base frame of a native method.
    Native,
    /// A local reference that is traced, by the place of its first trace.
    Local(usize),
}

/// The traces by what they are of, and what stands on each thread's stack.
#[derive(Drop)]
pub(crate) struct Suspects {
    /// By a reference's maker and number, its first trace.
    references: ByMaker<usize, Global>,
    /// By a buffer's maker and number, its first trace.
    buffers: ByMaker<usize, Global>,
    /// By the place of a trace, the next one of the same reference or buffer.
    next: Vec<Option<usize>>,
    /// The first traces of the weak references that were handed out.
    weak: Vec<usize>,
    /// By the thread's number.
    stacks: Vec<Vec<Layer>>,
}

fn push_traces(
    next: &[Option<usize>],
    first: Option<usize>,
    suspected: &mut Vec<usize>,
) -> Result<(), AllocError> {
    let mut at = first;
    for _ in 0..next.len() {
        let Some(trace) = at else {
            return Ok(());
        };
        suspected.push(trace)?;
        at = match next.get(trace) {
            None => None,
            Some(after) => *after,
        };
    }
    Ok(())
}

/// Adds the traces on a stack down to such a layer, and takes all these layers off.
fn take_off(
    stack: &mut Vec<Layer>,
    next: &[Option<usize>],
    down_to: Option<Layer>,
    suspected: &mut Vec<usize>,
) -> Result<(), AllocError> {
    for _ in 0..stack.len() {
        match stack.pop() {
            None => return Ok(()),
            Some(Layer::Local(first)) => push_traces(next, Some(first), suspected)?,
            Some(layer) => {
                if down_to == Some(layer) {
                    return Ok(());
                }
            }
        }
    }
    Ok(())
}

/// Has the name stand for the trace, unless it stands for one.
fn put(
    tables: &mut ByMaker<usize, Global>,
    name: (u16, u64),
    place: usize,
    alloc: Global,
) -> Result<(), AllocError> {
    if find(tables, name).is_some() {
        return Ok(());
    }
    add(tables, &alloc, name, place)
}

/// The reference that the call deletes.
fn deleted(call: &RefsCall) -> Option<Ref> {
    match call {
        RefsCall::DeleteLocalRef { of } => Some(*of),
        RefsCall::DeleteGlobalRef { of } => Some(*of),
        RefsCall::DeleteWeakGlobalRef { of } => Some(*of),
        _ => None,
    }
}

/// The buffer that the call releases.
fn released(call: &BuffersCall) -> Option<BufId> {
    match call {
        BuffersCall::ReleaseArrayElements { buffer, .. } => Some(*buffer),
        BuffersCall::ReleaseStringChars { buffer, .. } => Some(*buffer),
        BuffersCall::ReleaseStringUTFChars { buffer, .. } => Some(*buffer),
        BuffersCall::ReleasePrimitiveArrayCritical { buffer, .. } => Some(*buffer),
        BuffersCall::ReleaseStringCritical { buffer, .. } => Some(*buffer),
        _ => None,
    }
}

impl Suspects {
    /// Nothing is traced.
    pub(crate) fn new(alloc: Global) -> Suspects {
        Suspects {
            references: ByMaker::new(alloc, alloc, alloc),
            buffers: ByMaker::new(alloc, alloc, alloc),
            next: Vec::new(alloc),
            weak: Vec::new(alloc),
            stacks: Vec::new(alloc),
        }
    }

    fn first_of_reference(&self, reference: Ref) -> Option<usize> {
        match reference {
            Ref::Null => None,
            Ref::To { maker, n, .. } => find(&self.references, (maker.0, n)).copied(),
        }
    }

    fn first_of_buffer(&self, buffer: BufId) -> Option<usize> {
        find(&self.buffers, (buffer.maker.0, buffer.n)).copied()
    }

    /// The first trace of what the condition asks for.
    fn first_of(&self, condition: Condition) -> Option<usize> {
        match condition {
            Condition::Names { reference, .. } | Condition::NamesObject { reference, .. } => {
                self.first_of_reference(reference)
            }
            Condition::IsOpen { buffer } => self.first_of_buffer(buffer),
            _ => None,
        }
    }

    /// The place of the condition's trace, if it has one.
    pub(crate) fn trace_of(&self, traces: &[Trace], condition: Condition) -> Option<usize> {
        let mut at = self.first_of(condition);
        for _ in 0..self.next.len() {
            let Some(place) = at else {
                return None;
            };
            match traces.get(place) {
                Some(trace) if trace.condition == condition => return Some(place),
                _ => {}
            }
            at = match self.next.get(place) {
                None => None,
                Some(after) => *after,
            };
        }
        None
    }

    /// Has the trace at that place, which is the next one, stand for the condition.
    pub(crate) fn add(
        &mut self,
        condition: Condition,
        place: usize,
        alloc: Global,
    ) -> Result<(), AllocError> {
        match self.first_of(condition) {
            None => {
                self.next.push(None)?;
                self.put_first(condition, place, alloc)
            }
            Some(first) => self.put_behind(first, place),
        }
    }

    fn put_behind(&mut self, first: usize, place: usize) -> Result<(), AllocError> {
        let after = match self.next.get(first) {
            None => None,
            Some(after) => *after,
        };
        self.next.push(after)?;
        if first < self.next.len() {
            self.next[first] = Some(place);
        }
        Ok(())
    }

    fn put_first(
        &mut self,
        condition: Condition,
        place: usize,
        alloc: Global,
    ) -> Result<(), AllocError> {
        match condition {
            Condition::Names { reference, .. } | Condition::NamesObject { reference, .. } => {
                match reference {
                    Ref::Null => Ok(()),
                    Ref::To { maker, n, .. } => put(
                        &mut self.references,
                        (maker.0, n),
                        place,
                        alloc,
                    ),
                }
            }
            Condition::IsOpen { buffer } => put(
                &mut self.buffers,
                (buffer.maker.0, buffer.n),
                place,
                alloc,
            ),
            _ => Ok(()),
        }
    }

    /// Puts the traces of what the entry may have made or ended in the place of what is in the list.
    pub(crate) fn suspect(
        &mut self,
        entry: &Entry,
        traces: &[Trace],
        suspected: &mut Vec<usize>,
        alloc: Global,
    ) -> Result<(), AllocError> {
        suspected.clear();
        match entry.value() {
            None | Some(Value::Busy | Value::Detached | Value::Throw(_)) => Ok(()),
            Some(value) => {
                self.suspect_call(entry.tid(), entry.call(), traces, suspected, alloc)?;
                self.suspect_value(entry.tid(), value, suspected, alloc)
            }
        }
    }

    /// What the call ends.
    fn suspect_call(
        &mut self,
        tid: Tid,
        call: &Call,
        traces: &[Trace],
        suspected: &mut Vec<usize>,
        alloc: Global,
    ) -> Result<(), AllocError> {
        match call {
            Call::Refs(call) => match deleted(call) {
                None => Ok(()),
                Some(of) => push_traces(&self.next, self.first_of_reference(of), suspected),
            },
            Call::Frames(FramesCall::PushLocalFrame { .. }) => self.lay(tid, Layer::Frame, alloc),
            Call::Frames(FramesCall::PopLocalFrame { .. }) => {
                self.clear(tid, Some(Layer::Frame), suspected)
            }
            Call::Vm(VmCall::NativeEnter { .. }) => self.lay(tid, Layer::Native, alloc),
            Call::Vm(VmCall::NativeLeave { .. }) => self.clear(tid, Some(Layer::Native), suspected),
            Call::Vm(VmCall::DetachCurrentThread) => self.clear(tid, None, suspected),
            Call::Vm(VmCall::Collect) => self.suspect_weak(traces, suspected),
            Call::Buffers(call) => match released(call) {
                None => Ok(()),
                Some(buffer) => push_traces(&self.next, self.first_of_buffer(buffer), suspected),
            },
            _ => Ok(()),
        }
    }

    /// What the answer hands out.
    fn suspect_value(
        &mut self,
        tid: Tid,
        value: &Value,
        suspected: &mut Vec<usize>,
        alloc: Global,
    ) -> Result<(), AllocError> {
        match value {
            Value::Reference(reference) => {
                let Some(first) = self.first_of_reference(*reference) else {
                    return Ok(());
                };
                push_traces(&self.next, Some(first), suspected)?;
                match reference {
                    Ref::To {
                        kind: Kind::Local,
                        ..
                    } => self.lay(tid, Layer::Local(first), alloc),
                    Ref::To {
                        kind: Kind::Weak,
                        ..
                    } => {
                        self.weak.push(first)?;
                        Ok(())
                    }
                    _ => Ok(()),
                }
            }
            Value::Buffer(buffer) => push_traces(
                &self.next,
                self.first_of_buffer(*buffer),
                suspected,
            ),
            _ => Ok(()),
        }
    }

    /// The weak references that a collection may clear.
    fn suspect_weak(&self, traces: &[Trace], suspected: &mut Vec<usize>) -> Result<(), AllocError> {
        for first in &self.weak {
            match traces.get(*first) {
                Some(trace) if trace.ended.is_none() => {
                    push_traces(&self.next, Some(*first), suspected)?;
                }
                _ => {}
            }
        }
        Ok(())
    }

    /// Puts the layer on the thread's stack.
    fn lay(&mut self, tid: Tid, layer: Layer, alloc: Global) -> Result<(), AllocError> {
        let index = tid.0 as usize;
        for _ in self.stacks.len()..index + 1 {
            self.stacks.push(Vec::new(alloc))?;
        }
        match self.stacks.get_mut(index) {
            None => Ok(()),
            Some(stack) => {
                stack.push(layer)?;
                Ok(())
            }
        }
    }

    /// Takes all off the thread's stack down to such a layer, and that too.
    fn clear(
        &mut self,
        tid: Tid,
        down_to: Option<Layer>,
        suspected: &mut Vec<usize>,
    ) -> Result<(), AllocError> {
        match self.stacks.get_mut(tid.0 as usize) {
            None => Ok(()),
            Some(stack) => take_off(stack, &self.next, down_to, suspected),
        }
    }
}
