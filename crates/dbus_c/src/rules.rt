//! Match rules that C keeps from call to call.
#![tactic(auto)]

ghost use Rattle.std.specs.Prelude.{◌≡◌, MatchOption, None};
ghost use Rattle.dbus_c.specs.Checking.{IsChecked};
ghost use Rattle.dbus_c.specs.GivenLimits.{limits_of};
ghost use Rattle.dbus_c.specs.MayMatch.{TellsMay};
ghost use Rattle.dbus_c.specs.Outcomes.{with_memory, with_room};
ghost use Rattle.dbus_c.specs.Rules.{IsOwner, TellsAll, TellsAsBus, TellsMatching, TellsOwner, TellsRule, TellsRuleText, removal_told, rule_fault_told};
ghost use Rattle.dbus_c_handle.specs.Rules.{as_bus_of, given_of, owners_of, rules_of};
ghost use Rattle.dbus_texts.specs.Kinds.{IsKind};
ghost use Rattle.dbus_texts.specs.declared.text_kind.TextKind.TheVariants.{BusName};
ghost use Rattle.dbus_rule_set.specs.Held.{rule_at, without};

use crate::answers::{NO_MEMORY, NO_ROOM, NO_RULE, REFUSED, WHOLE};
use crate::checking::{Checked, first_validated, first_view};
use crate::given_limits::WireLimits;
use crate::names::put_text;
use crate::rule_reasons::{NOT_UTF8, rule_reason_number};
use dbus_c_handle::WireHandle;
use dbus_match::RuleFault;
use dbus_rule_set::RuleHandle;
use dbus_texts::check_bus_name;
use std::alloc::Global;

/// Why a text spells no rule.
#[repr(C)]
#[derive(Drop)]
pub struct RuleRefused {
    /// The offset, in bytes from the first.
    pub offset: u64,
    /// The number of the reason.
    pub reason: u32,
    /// 0.
    pub reserved: u32,
}

/// Adds the match rule that the text spells to the rules, and writes its id to `id`, which no rule
/// had before: [`WHOLE`]. Else what is kept stays: [`REFUSED`] with the text's one fault, as
/// [`dbus_match::parse_rule`] finds it, or that it is not UTF-8, which comes first; [`NO_MEMORY`]
/// if memory runs out, or 2^64 - 1 rules were added. `id` changes in the first case alone, and
/// `out` in the second. D-Bus Specification, "Match Rules".
#[unsafe(no_mangle)]
pub extern "C" fn dbus_wire_rules_add(
    alloc: Global,
    rules: &mut WireHandle,
    text: &[u8],
    id: &mut RuleHandle,
    out: &mut RuleRefused,
) -> u32
    ensures { TellsRule text.now result rules.old.state rules.new.state id.old id.new out.old out.new }
{
    let added = match str::from_utf8(text) {
        Ok(text) => rules.add_rule(alloc, text),
        Err(error) => {
            *out = fault_at(error.valid_up_to(), NOT_UTF8);
            return REFUSED;
        }
    };
    match added {
        Ok(handle) => {
            *id = handle;
            WHOLE
        }
        Err(RuleFault::Memory) => NO_MEMORY,
        Err(RuleFault::Bad { at, reason }) => {
            *out = fault_at(at, rule_reason_number(reason));
            REFUSED
        }
    }
}

/// Removes the rule that `id` stands for: [`WHOLE`]; [`NO_RULE`] if it stands for none. From then
/// on it stands for none.
#[unsafe(no_mangle)]
pub extern "C" fn dbus_wire_rules_remove(rules: &mut WireHandle, id: &RuleHandle) -> u32
    ensures told { result ≡ removal_told (rule_at id.now (rules_of rules.old.state)) }
    ensures removed { rules_of rules.new.state ≡ without id.now (rules_of rules.old.state) }
    ensures given { given_of rules.new.state ≡ given_of rules.old.state }
    ensures asked { as_bus_of rules.new.state ≡ as_bus_of rules.old.state }
    ensures owners { owners_of rules.new.state ≡ owners_of rules.old.state }
{
    if rules.remove_rule(*id) {
        WHOLE
    } else {
        NO_RULE
    }
}

/// Notes that the name has this owner, in place of the one that it had, for the rules: [`WHOLE`].
/// With an empty owner, it has none from then on. Else what is kept stays: [`REFUSED`] if the name
/// is no bus name, or the owner is neither a bus name nor empty; [`NO_MEMORY`] if memory runs out.
/// D-Bus Specification, "Bus names".
#[unsafe(no_mangle)]
pub extern "C" fn dbus_wire_rules_owner(
    alloc: Global,
    rules: &mut WireHandle,
    name: &[u8],
    owner: &[u8],
) -> u32
    ensures { TellsOwner name.now owner.now rules.old.state rules.new.state result }
{
    let Some(name) = bus_name(name) else {
        return REFUSED;
    };
    let Some(owner) = owner_name(owner) else {
        return REFUSED;
    };
    match rules.set_owner(alloc, name, owner) {
        Ok(_) => WHOLE,
        Err(_) => NO_MEMORY,
    }
}

/// Asks the rules as a bus asks them from now on, or, if `as_bus` is 0, not: [`WHOLE`]. A bus asks
/// of a message with a DESTINATION only rules with `eavesdrop='true'`. [`NO_MEMORY`] if memory runs
/// out; then what is kept stays. D-Bus Specification, "Eavesdropping".
#[unsafe(no_mangle)]
pub extern "C" fn dbus_wire_rules_as_bus(alloc: Global, rules: &mut WireHandle, as_bus: u32) -> u32
    ensures { TellsAsBus as_bus rules.old.state rules.new.state result }
{
    match rules.ask_as_bus(alloc, as_bus != 0) {
        Ok(()) => WHOLE,
        Err(_) => NO_MEMORY,
    }
}

/// Writes the id of each rule that matches the message within the limits that the bytes begin with,
/// from the start of `ids` on: [`WHOLE`]. [`NO_ROOM`] if `ids` is too short for them, and then it
/// stays as it is. In both cases `count` is their number. [`crate::PARTIAL`] and [`REFUSED`] as
/// [`crate::dbus_wire_check`], of which `told` has what it reports. Of a message, [`NO_MEMORY`] if
/// memory runs out. In these three cases `ids` and `count` stay as they are.
///
/// A rule's `sender` matches a message whose SENDER is that name, or the owner that
/// [`dbus_wire_rules_owner`] noted of it. It takes memory for what it finds. D-Bus Specification,
/// "Match Rules".
#[unsafe(no_mangle)]
pub extern "C" fn dbus_wire_rules_matching(
    alloc: Global,
    rules: &mut WireHandle,
    bytes: &[u8],
    limits: &WireLimits,
    ids: &mut [RuleHandle],
    count: &mut u64,
    told: &mut Checked,
) -> u32
    ensures same { rules.new.state ≡ rules.old.state }
    ensures checked { IsChecked (limits_of limits.now) bytes.now (with_room (with_memory result)) told.new }
    ensures matching { TellsMatching rules.old.state (limits_of limits.now) bytes.now result ids.old ids.new count.old count.new }
{
    let validated = match first_validated(bytes, limits, told) {
        Ok(validated) => validated,
        Err(answer) => return answer,
    };
    let view = first_view(bytes, limits, validated);
    let Ok(found) = rules.matching(alloc, &view) else {
        return NO_MEMORY;
    };
    *count = found.len() as u64;
    tell_all(&found, ids)
}

/// Whether any of the rules may match the message within the limits that the bytes begin with, as
/// [`dbus_match::may_match_view`] says: [`WHOLE`], and `may` is 1 if one may, and else 0.
/// [`crate::PARTIAL`] and [`crate::REFUSED`] as [`crate::dbus_wire_check`], of which `told` has what
/// it reports; then `may` stays as it is.
///
/// `sender` is the name that the bus writes as the message's SENDER; if it is no bus name, as an
/// empty text is none, that is not known. Owners of names are those that
/// [`crate::dbus_wire_rules_owner`] noted. It allocates nothing. D-Bus Specification, "Match Rules".
#[unsafe(no_mangle)]
pub extern "C" fn dbus_wire_rules_may_match(
    rules: &mut WireHandle,
    bytes: &[u8],
    limits: &WireLimits,
    sender: &[u8],
    may: &mut u32,
    told: &mut Checked,
) -> u32
    ensures same { rules.new.state ≡ rules.old.state }
    ensures checked { IsChecked (limits_of limits.now) bytes.now result told.new }
    ensures may { TellsMay rules.old.state (limits_of limits.now) bytes.now sender.now result may.old may.new }
{
    let validated = match first_validated(bytes, limits, told) {
        Ok(validated) => validated,
        Err(answer) => return answer,
    };
    let view = first_view(bytes, limits, validated);
    *may = u32::from(rules.any_may_match(&view, bus_name(sender)));
    WHOLE
}

/// Writes the canonical text of the rule that `id` stands for and a 0 after it at the start of
/// `out`: [`WHOLE`]. [`NO_ROOM`] if `out` is too short for both. In both cases `length` is the
/// text's number of bytes. [`NO_MEMORY`] if memory runs out, and [`NO_RULE`] if it stands for none;
/// then `length` stays as it is. `out` changes under [`WHOLE`] alone. D-Bus Specification, "Match
/// Rules".
#[unsafe(no_mangle)]
pub extern "C" fn dbus_wire_rules_text(
    alloc: Global,
    rules: &mut WireHandle,
    id: &RuleHandle,
    out: &mut [u8],
    length: &mut u64,
) -> u32
    ensures same { rules.new.state ≡ rules.old.state }
    ensures told { TellsRuleText (rule_at id.now (rules_of rules.old.state)) result out.old out.new length.old length.new }
{
    match rules.canonical_text(alloc, *id) {
        None => NO_RULE,
        Some(Err(_)) => NO_MEMORY,
        Some(Ok(text)) => {
            *length = put_text(text.as_bytes(), out) as u64;
            if text.len() < out.len() {
                WHOLE
            } else {
                NO_ROOM
            }
        }
    }
}

/// Frees the rules and the owners of names, if there are any: from then on there are none of
/// either.
#[unsafe(no_mangle)]
pub extern "C" fn dbus_wire_rules_free(alloc: Global, rules: &mut WireHandle)
    ensures { rules.new.state ≡ None }
{
    rules.free(alloc);
}

// Writes all handles at the start of the room, if it has room for them.
fn tell_all(handles: &[RuleHandle], room: &mut [RuleHandle]) -> u32
    ensures { TellsAll handles.now result room.old room.new }
{
    if room.len() < handles.len() {
        return NO_ROOM;
    }
    room[..handles.len()].copy_from_slice(handles);
    WHOLE
}

// What is told of a fault at this place.
fn fault_at(at: usize, reason: u32) -> RuleRefused
    ensures { result ≡ rule_fault_told at reason }
{
    RuleRefused {
        offset: at as u64,
        reason,
        reserved: 0,
    }
}

/// The text, if it is a bus name.
pub(crate) fn bus_name(text: &[u8]) -> Option<&str>
    ensures { MatchOption result (IsKind BusName text.now → ⊥) (λ name. IsKind BusName text.now × (name.now ≡ text.now)) }
{
    let Ok(name) = str::from_utf8(text) else {
        return None;
    };
    if check_bus_name(text).is_ok() {
        Some(name)
    } else {
        None
    }
}

// The text, if it is a bus name or empty.
fn owner_name(text: &[u8]) -> Option<&str>
    ensures { MatchOption result (IsOwner text.now → ⊥) (λ name. IsOwner text.now × (name.now ≡ text.now)) }
{
    if text.is_empty() {
        return Some("");
    }
    bus_name(text)
}
