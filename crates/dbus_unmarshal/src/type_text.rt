//! The text of a type, in a room of fixed size.
#![tactic(auto)]

ghost use Rattle.std.specs.Prelude.{◌≡◌, ◌+◌, ◌≤◌, ◌++◌, length};
ghost use Rattle.dbus_texts.specs.Types.{sig, sigs};
ghost use Rattle.dbus_types.specs.SigTypes.{type_tree, type_trees_of};

use arrayvec::ArrayVec;
use dbus_types::{SigType, type_code};
use std::alloc::Allocator;

/// Appends the text of a type, which has room there: one code for each basic type. D-Bus
/// Specification, "Type System".
#[cycle(text)]
pub(crate) fn put_type<A: Allocator + Copy>(out: &mut ArrayVec<u8, 255>, ty: &SigType<A>)
    requires fits { length out.old.items + length (sig (type_tree ty.now)) ≤ 255 }
    ensures { out.new.items ≡ out.old.items ++ sig (type_tree ty.now) }
{
    match ty {
        SigType::Array(element) => {
            out.push(b'a');
            put_type(out, element);
        }
        SigType::Struct(fields) => {
            out.push(b'(');
            put_types(out, fields.as_slice());
            out.push(b')');
        }
        SigType::Entry(key, value) => {
            out.push(b'{');
            put_type(out, key);
            put_type(out, value);
            out.push(b'}');
        }
        _ => out.push(type_code(ty)),
    }
}

/// Appends the texts of types, which have room there.
#[cycle(text)]
fn put_types<A: Allocator + Copy>(out: &mut ArrayVec<u8, 255>, types: &[SigType<A>])
    requires fits { length out.old.items + length (sigs (type_trees_of types.now)) ≤ 255 }
    ensures { out.new.items ≡ out.old.items ++ sigs (type_trees_of types.now) }
{
    for ty in types {
        put_type(out, ty);
    }
}
