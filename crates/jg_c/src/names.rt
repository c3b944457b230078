//! Classes and native methods by what the setup calls them.

ghost use Rattle.std.specs.Prelude.{◌≡◌, ◌≢◌, ◌↔◌, None, Some, IfOk, Err};
ghost use Rattle.jg_words.specs.Name.{IsName};
ghost use Rattle.jg_c.specs.Errors as errors;
ghost use Rattle.jg_c.specs.Names as specs;
ghost use Rattle.jg_c.specs.Names.{IsClassNamed, IsNativeNamed, IsOfObjectArrays};
ghost use Rattle.jg_c.specs.Sessions.{Of, core_of};

use crate::handle::Handle;
use crate::numbers::{
    BAD_VALUE, CLOSED, KIND_ARRAY_CLASS, KIND_CLASS, KIND_DOUBLES, KIND_FLOATS, KIND_OBJECT,
    KIND_OBJECTS, KIND_THROWABLE, NO_MEMORY, NO_NAME,
};
use jg_core::Core;
use jg_judge::OwnKind;
use jg_policy::Setup;
use jg_words::{Name, NameFault};
use std::alloc::Global;
use std::str;

/// The name that the bytes are.
fn name_of(alloc: Global, bytes: &[u8]) -> Result<Name, NameFault>
    ensures ok { IfOk result (λ name. name ≡ bytes.now) }
    ensures fits { IfOk result (λ name. IsName bytes.now) }
    ensures not_a_name { result ≡ Err NameFault.NotAName → ¬ IsName bytes.now }
{
    match str::from_utf8(bytes) {
        Ok(text) => Name::new(alloc, text),
        Err(_) => Err(NameFault::NotAName),
    }
}

/// The number that was found, if one was.
fn found(number: Option<u32>) -> i64
    ensures is { result ≡ specs.found number }
    ensures numbers { (result ≢ errors.closed) × (result ≢ errors.no_memory) }
{
    match number {
        None => i64::from(NO_NAME),
        Some(number) => i64::from(number),
    }
}

/// The number of why there is no name.
fn of_name_fault(fault: NameFault) -> i64
    ensures not_a_name { fault ≡ NameFault.NotAName → result ≡ errors.no_name }
    ensures no_memory { fault ≡ NameFault.NoMemory → result ≡ errors.no_memory }
    ensures numbers { result ≢ errors.closed }
{
    match fault {
        NameFault::NotAName => i64::from(NO_NAME),
        NameFault::NoMemory => i64::from(NO_MEMORY),
    }
}

fn class_named(alloc: Global, setup: &Setup, name: &[u8]) -> i64
    ensures is { result ≢ errors.no_memory → IsClassNamed setup.now name.now result }
    ensures numbers { result ≢ errors.closed }
{
    match name_of(alloc, name) {
        Ok(name) => found(setup.class_named(&name)),
        Err(fault) => of_name_fault(fault),
    }
}

/// The number of the class that the setup states by this name (docs/FORMATS.md, "The setup text").
#[unsafe(no_mangle)]
pub extern "C" fn jg_class_named(alloc: Global, core: &mut Handle, name: &[u8]) -> i64
    ensures closed { (result ≡ errors.closed) ↔ (core_of core.old.value ≡ None) }
    ensures is { result ≢ errors.no_memory
        → Of (core_of core.old.value) (λ a. IsClassNamed a.core.setup name.now result) }
    ensures same { core.new.value ≡ core.old.value }
{
    match core.core() {
        Some(asked) => class_named(alloc, asked.core.setup(), name),
        None => i64::from(CLOSED),
    }
}

fn native_named(alloc: Global, setup: &Setup, class: u32, name: &[u8], signature: &[u8]) -> i64
    ensures is { result ≢ errors.no_memory → IsNativeNamed setup.now class name.now signature.now result }
    ensures numbers { result ≢ errors.closed }
{
    let name = match name_of(alloc, name) {
        Ok(name) => name,
        Err(fault) => return of_name_fault(fault),
    };
    match name_of(alloc, signature) {
        Ok(signature) => found(setup.native_named(class, &name, &signature)),
        Err(fault) => of_name_fault(fault),
    }
}

/// The number, from 1, of the class's native method of this name and type that the setup states.
#[unsafe(no_mangle)]
pub extern "C" fn jg_native_named(
    alloc: Global,
    core: &mut Handle,
    class: u32,
    name: &[u8],
    signature: &[u8],
) -> i64
    ensures closed { (result ≡ errors.closed) ↔ (core_of core.old.value ≡ None) }
    ensures is { result ≢ errors.no_memory → Of (core_of core.old.value)
        (λ a. IsNativeNamed a.core.setup class name.now signature.now result) }
    ensures same { core.new.value ≡ core.old.value }
{
    match core.core() {
        Some(asked) => native_named(alloc, asked.core.setup(), class, name, signature),
        None => i64::from(CLOSED),
    }
}

/// The kind of objects of this number, by `JG_KIND_OBJECT` and so on.
fn own_kind(number: u32) -> Option<OwnKind>
    ensures { result ≡ specs.own_kind number }
{
    match number {
        KIND_OBJECT => Some(OwnKind::Object),
        KIND_THROWABLE => Some(OwnKind::Throwable),
        KIND_CLASS => Some(OwnKind::Class),
        KIND_ARRAY_CLASS => Some(OwnKind::ClassOfArrays),
        KIND_FLOATS => Some(OwnKind::Floats),
        KIND_DOUBLES => Some(OwnKind::Doubles),
        _ => None,
    }
}

/// The class `[Ljava/lang/Object;`, that of arrays of objects.
const OBJECT_ARRAY: i64 = 3;

fn class_of(core: &Core, kind: u32) -> i64
    ensures is { result ≡ specs.class_of_kind core.now.setup kind }
    ensures objects { kind ≡ 6 → IsOfObjectArrays core.now.setup result }
    ensures numbers { result ≢ errors.closed }
{
    if kind == KIND_OBJECTS {
        return OBJECT_ARRAY;
    }
    match own_kind(kind) {
        Some(kind) => i64::from(core.class_of(kind)),
        None => i64::from(BAD_VALUE),
    }
}

/// The number of the class of objects of this kind, whose own class the setup doesn't state.
#[unsafe(no_mangle)]
pub extern "C" fn jg_class_of(core: &mut Handle, kind: u32) -> i64
    ensures closed { (result ≡ errors.closed) ↔ (core_of core.old.value ≡ None) }
    ensures is { Of (core_of core.old.value) (λ a. result ≡ specs.class_of_kind a.core.setup kind) }
    ensures objects { kind ≡ 6 → Of (core_of core.old.value) (λ a. IsOfObjectArrays a.core.setup result) }
    ensures same { core.new.value ≡ core.old.value }
{
    match core.core() {
        Some(asked) => class_of(&asked.core, kind),
        None => i64::from(CLOSED),
    }
}
