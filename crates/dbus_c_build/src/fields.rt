//! Header fields of texts and numbers, appended. D-Bus Specification, "Header Fields".
#![tactic(auto)]

ghost use Rattle.std.specs.Prelude.{◌≡◌, ◌∷◌, [], ◌++◌, OnOk, IfErr};
ghost use Rattle.dbus_texts.specs.Types.{TextType, sig};
ghost use Rattle.dbus_value_model.specs.SizeLimits.{with_padding, with_value};
ghost use Rattle.dbus_value_model.specs.Values.{TextValue};
ghost use Rattle.dbus_message_model.specs.Messages.{field_struct};
ghost use Rattle.dbus_c_build.specs.Drafts.{text_code, number_field, field_given};
ghost use Rattle.dbus_c_build.specs.Building.{with_fields, AreShort};
ghost use Rattle.dbus_c_build.specs.declared.draft_fault.DraftFault.TheVariants.{Memory};

use crate::draft::Draft;
use crate::draft_fault::DraftFault;
use dbus_body::{PutFault, begin_struct, put_number, put_signature, put_text};
use dbus_message_model::field_code::{PATH, SIGNATURE};
use dbus_value_model::Order;
use std::alloc::{AllocError, Allocator};

/// The code of the type of the text in a field.
fn text_type(code: u8) -> u8
    ensures { result ∷ [] ≡ sig (TextType (text_code code)) }
{
    match code {
        PATH => b'o',
        SIGNATURE => b'g',
        _ => b's',
    }
}

/// Appends what stands before a field's value: padding, the code, and the signature of one basic
/// type.
fn start_field<A: Allocator>(
    out: &mut Vec<u8, A>,
    code: u8,
    type_code: u8,
) -> Result<(), AllocError>
    ensures { OnOk result (out.new.items ≡
        with_padding 8 out.old.items ++ (code ∷ (1 ∷ (type_code ∷ (0 ∷ []))))) }
{
    begin_struct(out)?;
    out.extend_from_slice(&[code, 1, type_code, 0])
}

/// Appends the field of a text.
fn append_text<A: Allocator>(
    out: &mut Vec<u8, A>,
    order: Order,
    code: u8,
    text: &[u8],
) -> Result<(), PutFault>
    ensures { OnOk result (out.new.items ≡ with_value order
        (field_struct (record { code = code; value = TextValue (text_code code) text.now }))
        out.old.items) }
{
    start_field(out, code, text_type(code))?;
    if code == SIGNATURE {
        return put_signature(out, text);
    }
    put_text(out, order, text)
}

/// Appends the field of a number, if it is not 0.
fn append_number<A: Allocator>(
    out: &mut Vec<u8, A>,
    order: Order,
    code: u8,
    n: u32,
) -> Result<(), AllocError>
    ensures { OnOk result (out.new.items ≡ with_fields order (number_field code n) out.old.items) }
{
    if n == 0 {
        return Ok(());
    }
    start_field(out, code, b'u')?;
    put_number(out, order, 4, u64::from(n))
}

/// Appends the field of a known code, if the parts have one.
pub(crate) fn append_given<A: Allocator>(
    out: &mut Vec<u8, A>,
    parts: &Draft<'_>,
    code: u8,
) -> Result<(), DraftFault>
    requires { AreShort parts.now }
    ensures appended { OnOk result (out.new.items ≡
        with_fields parts.now.order (field_given parts.now code) out.old.items) }
    ensures memory { IfErr result (λ why. why ≡ Memory) }
{
    match parts.text(code) {
        Some(text) => {
            append_text(out, parts.order, code, text)?;
            Ok(())
        }
        None => {
            append_number(out, parts.order, code, parts.number(code))?;
            Ok(())
        }
    }
}
