//! A message in the order that is wanted.
ghost use Rattle.std.specs.Prelude.{◌≡◌, [], ℕ, List, OnErr, OnOk, length};
ghost use Rattle.dbus_value_model.specs.declared.order.Order.{Order};
ghost use Rattle.dbus_message_model.specs.Messages.{MessageTree, message_bytes};
ghost use Rattle.dbus_header.specs.MessageOutcomes.{IsWhole};
ghost use Rattle.dbus_validate.specs.Validating.{IsValidatedWhole};
ghost use Rattle.dbus_swap.specs.Byteswapping.{other};
ghost use Rattle.cli_run.specs.Handing.{after_front};

use crate::byte_draft::ByteDraft;
use crate::framing::{Front, write_message};
use crate::place::Lent;
use dbus_swap::byteswap;
use dbus_value_model::Order;
use std::alloc::{AllocError, Allocator};

/// Appends the message in the order that is wanted, after what comes before it.
pub(crate) fn swap<A: Allocator + Copy, D: ByteDraft>(
    wanted: Order,
    lent: &Lent,
    front: Front,
    spare: &mut Vec<u8, A>,
    draft: &mut D,
) -> Result<(), AllocError>
    requires { IsValidatedWhole lent.now.limits lent.now.bytes.now lent.now.validated }
    ensures swaps { (order : Order) (m : MessageTree) →
        IsWhole lent.now.limits lent.now.bytes.now order m (length lent.now.bytes.now) →
        OnOk result (D.gains draft.old (after_front front (message_bytes wanted m)) draft.new) }
    ensures short { OnErr result (D.gains draft.old [] draft.new) }
{
    if lent.validated.order == wanted {
        write_message(draft, front, lent.bytes);
        Ok(())
    } else {
        write_byteswapped(lent, front, spare, draft)
    }
}

// The same in the order that is not the message's own, turned in a copy of its bytes.
fn write_byteswapped<A: Allocator + Copy, D: ByteDraft>(
    lent: &Lent,
    front: Front,
    spare: &mut Vec<u8, A>,
    draft: &mut D,
) -> Result<(), AllocError>
    requires { IsValidatedWhole lent.now.limits lent.now.bytes.now lent.now.validated }
    ensures swaps { (m : MessageTree) →
        IsWhole lent.now.limits lent.now.bytes.now lent.now.validated.order m
        (length lent.now.bytes.now) →
        OnOk result (D.gains draft.old
        (after_front front (message_bytes (other lent.now.validated.order) m)) draft.new) }
    ensures short { OnErr result (D.gains draft.old [] draft.new) }
{
    spare.clear();
    spare.extend_from_slice(lent.bytes)?;
    byteswap(
        lent.bytes,
        spare.as_mut_slice(),
        &lent.validated,
        lent.limits,
    );
    write_message(draft, front, spare.as_slice());
    Ok(())
}
