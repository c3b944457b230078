//! What the calls on strings answer and make.

ghost use Rattle.std.specs.Prelude.{◌≡◌, map, length, true, IfOk, OnOk, OnErr};
ghost use Rattle.jg_words.specs.declared.call.Call.TheVariants.{Strings};
ghost use Rattle.jg_rules.specs.Parts.{Parts, TablesStand};
ghost use Rattle.jg_rules.specs.View.{ViewStands, rows_in};
ghost use Rattle.jg_rules.specs.Answers.{strings_answer};
ghost use Rattle.jg_rules.specs.Effects.{done_by};
ghost use Rattle.jg_guard.specs.Tables.{rows_of, IsDue, IsEffective, KeepsRoom};
ghost use Rattle.std.specs.List.{list_all};
ghost use Rattle.jg_words.specs.declared.object.Primitive.TheVariants.{Char};
ghost use Rattle.jg_words.specs.declared.call.strings.StringsCall.TheVariants.{GetStringRegion};
ghost use Rattle.jg_table_heap.specs.Reading.{natural};
ghost use Rattle.jg_rules.specs.Numbers.{is_value_of};

use crate::forms::{handing_out, plain, throwing};
use crate::region::{is_outside, units_in};
use crate::tables::Tables;
use jg_policy::Setup;
use jg_rules::{Answer, View, length_of, the_object, units_of};
use jg_table_heap::{Shape, from_mutf8_items, mutf8_len};
use jg_words::{Kind, ObjId, Ref, StringsCall, Thrown, Tid, Value};
use std::alloc::{AllocError, Allocator, Global};

fn answer_region<A: Allocator + Clone>(
    view: &View<'_, A>,
    lists: Global,
    tid: Tid,
    string: Ref,
    start: i32,
    count: i32,
) -> Result<Answer, AllocError>
    requires { IsDue view.now.setup.now (rows_in view.now) tid.0 (Strings (GetStringRegion string start count)) }
    ensures { IfOk result (λ given. (p : Parts) → ViewStands view.now p
        → given ≡ strings_answer view.now.setup.now p tid (GetStringRegion string start count)) }
{
    let object = the_object(view, tid, string);
    let units = units_of(view, object);
    if is_outside(start, i64::from(count), units.len()) {
        return Ok(throwing(view, Thrown::StringIndexOutOfBounds));
    }
    let list = units_in(lists, units, start as usize, count as usize)?;
    Ok(plain(Value::List(list)))
}

/// What a call of the group answers, where it breaks no rule.
pub(crate) fn answer_strings<A: Allocator + Clone>(
    view: &View<'_, A>,
    lists: Global,
    tid: Tid,
    call: &StringsCall,
) -> Result<Answer, AllocError>
    requires { IsDue view.now.setup.now (rows_in view.now) tid.0 (Strings call.now) }
    ensures { IfOk result (λ given. (p : Parts) → ViewStands view.now p
        → given ≡ strings_answer view.now.setup.now p tid call.now) }
{
    match call {
        StringsCall::NewString { .. } => Ok(handing_out(
            view,
            tid,
            Kind::Local,
            Some(ObjId(view.heap.len())),
        )),
        StringsCall::NewStringUTF { .. } => Ok(handing_out(
            view,
            tid,
            Kind::Local,
            Some(ObjId(view.heap.len())),
        )),
        StringsCall::GetStringLength { string } => {
            let length = length_of(view, the_object(view, tid, *string));
            Ok(plain(Value::Number(length as i64)))
        }
        StringsCall::GetStringUTFLength { string } => {
            let length = mutf8_len(units_of(view, the_object(view, tid, *string)));
            Ok(plain(Value::Number(length as i64)))
        }
        StringsCall::GetStringRegion {
            string,
            start,
            length,
        } => {
            let given = answer_region(view, lists, tid, *string, *start, *length)?;
            Ok(given)
        }
    }
}

/// The unit that an item is, where it is one.
fn unit_of_item(item: i64) -> u16
    ensures { is_value_of Char item ≡ true → result ≡ natural item }
{
    if 0 <= item && item <= 0xFFFF {
        item as u16
    } else {
        0
    }
}

/// The items, which the rules have found to be units, as units.
fn units_from<A: Allocator>(alloc: A, items: &[i64]) -> Result<Vec<u16, A>, AllocError>
    requires { list_all (is_value_of Char) items.now ≡ true }
    ensures { IfOk result (λ units. units.items ≡ map natural items.now) }
{
    let mut units = Vec::with_capacity(alloc, items.len())?;
    for item in items {
        units.push(unit_of_item(*item))?;
    }
    Ok(units)
}

/// Does what a call of the group does beside handing out a reference. An `Err` leaves all rows as
/// they were.
pub(crate) fn perform_strings<A: Allocator + Clone>(
    tables: &mut Tables<A>,
    setup: &Setup,
    tid: Tid,
    call: &StringsCall,
) -> Result<(), AllocError>
    requires { IsEffective setup.now (rows_of tables.old) tid (Strings call.now) }
    ensures stands { OnOk result ((p : Parts) → TablesStand setup.now (rows_of tables.old) p
        → TablesStand setup.now (rows_of tables.new) (done_by setup.now tid.0 (Strings call.now) p)) }
    ensures room { OnOk result (KeepsRoom tables.old tables.new tid.0 (Strings call.now)) }
    ensures err { OnErr result (rows_of tables.new ≡ rows_of tables.old) }
{
    match call {
        StringsCall::NewString { units } => {
            let units = units_from(tables.alloc.clone()?, units.as_slice())?;
            tables.heap.alloc(Shape::Text(units))?;
            Ok(())
        }
        StringsCall::NewStringUTF { bytes } => {
            match from_mutf8_items(tables.alloc.clone()?, bytes.as_slice())? {
                None => unreachable!(),
                Some(units) => {
                    tables.heap.alloc(Shape::Text(units))?;
                    Ok(())
                }
            }
        }
        StringsCall::GetStringLength { .. } => Ok(()),
        StringsCall::GetStringUTFLength { .. } => Ok(()),
        StringsCall::GetStringRegion { .. } => Ok(()),
    }
}
