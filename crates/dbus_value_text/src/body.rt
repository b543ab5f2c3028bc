//! The values of a message's body as text, from its bytes. D-Bus Specification, "Message Format".
#![tactic(auto)]

ghost use Rattle.std.specs.Prelude.{ℕ, List};
ghost use Rattle.dbus_message_model.specs.Messages.{MessageTree};
ghost use Rattle.dbus_value_text.specs.Forms.{AreTexts, led};
ghost use Rattle.dbus_validate.specs.Validating.{WasValidated, IsWholeOf};

use crate::value_form::ValueForm;
use crate::values::write_value;
use dbus_show::Draft;
use dbus_validate::Whole;
use dbus_walk::Spot;

/// Appends the values of a message's body in a form: the first after a lead, and each other after a
/// separator. D-Bus Specification, "Message Format".
pub fn write_body<F: ValueForm, D: Draft>(
    draft: &mut D,
    whole: &Whole<'_>,
    lead: &str,
    separator: &str,
)
    requires validated { WasValidated whole.now }
    ensures written { (m : MessageTree) → IsWholeOf whole.now m →
        (texts : List (List ℕ)) × AreTexts F.is_text m.body texts ×
        D.gains draft.old (led lead.now separator.now texts) draft.new }
{
    let source = whole.source();
    let whole = *whole;
    let mut table = [0; 255];
    let body = whole.body(&mut table);
    let mut place = body.at;
    let mut pos = 0;
    let mut before = lead;
    while pos < body.types.len() {
        let end = pos + usize::from(body.lengths[pos]);
        let spot = Spot {
            at: place,
            types: &body.types[pos..end],
            lengths: &body.lengths[pos..end],
            depth_left: body.depth_left,
        };
        draft.push_str(before);
        before = separator;
        place = write_value::<F, D>(draft, &source, &spot);
        pos = end;
    }
}
