//! The wire format for C: calls that a static library exports, over numbers and the caller's bytes.
//! D-Bus Specification, "Message Protocol", "Match Rules", "Authentication Protocol" and
//! "Server Addresses".
//!
//! [`dbus_wire_check`] checks bytes, [`dbus_wire_wanted`] returns how many to read,
//! [`dbus_wire_parts_of`] gives a message's parts, and [`dbus_wire_swap`] byteswaps.
//! [`dbus_wire_flatten`] gives all values of its body as one row of items,
//! [`dbus_wire_flatten_fields`] those of its header fields, and [`dbus_wire_read`] its parts and
//! its body's values by one validation; [`dbus_wire_json`] writes it as a line of JSON, which
//! [`dbus_wire_from_json`] reads back.
//! [`dbus_wire_explain`] explains for a reader why bytes are refused, and
//! [`dbus_wire_flatten_whole`] gives the header fields and the values of the body before the fault.
//! [`dbus_wire_checker_new`] makes a checker that takes one
//! piece after another, and [`dbus_wire_rules_add`] keeps match rules,
//! [`dbus_wire_rules_owner`] the owners of names, [`dbus_wire_rules_as_bus`] asks as a bus asks, and
//! [`dbus_wire_rules_may_match`] says whether one may match a message;
//! [`dbus_wire_server_new`] and [`dbus_wire_client_new`] make an end of a handshake, and
//! [`dbus_wire_connection_new`] a side of a connection of it;
//! [`dbus_wire_client_line`] and [`dbus_wire_server_line`] give the lines of one between others, of
//! which [`dbus_wire_watch_client`] and [`dbus_wire_watch_server`] say what to pass on;
//! [`dbus_wire_address_check`] reads server addresses;
//! [`dbus_wire_build`] builds a message of a draft, whose body [`dbus_wire_put_number`] and its
//! like spell, [`dbus_wire_rebuild`] changes one, and [`dbus_wire_reply_to`] replies to one.
//!
//! `include/dbus_wire.h` declares them, and says which allocate and what a caller owes;
//! `examples/c` has callers.
#![tactic(auto)]

mod address_reasons;
mod addresses;
mod answers;
mod building;
mod checkers;
mod checking;
pub mod connection_event;
mod connections;
mod drafts;
mod explaining;
mod flattening;
mod from_json;
mod given_limits;
mod handshake_lines;
mod handshakes;
mod json_lines;
mod json_reasons;
pub mod laws;
pub mod line_command;
mod names;
mod parts;
mod reading;
mod reasons;
mod rule_reasons;
mod rules;
mod swapping;
mod texts;
mod version;
mod wanted;
mod watching;
mod whole_parts;
mod writers;
mod written;

pub use address_reasons::address_reason_number;
pub use address_reasons::dbus_wire_address_reason_name;
pub use addresses::AddressesTold;
pub use addresses::dbus_wire_address_check;
pub use addresses::dbus_wire_address_transport;
pub use addresses::dbus_wire_address_value;
pub use answers::NO_CHECKER;
pub use answers::NO_CONNECTION;
pub use answers::NO_HANDSHAKE;
pub use answers::NO_KIND;
pub use answers::NO_MEMORY;
pub use answers::NO_ROOM;
pub use answers::NO_RULE;
pub use answers::NO_VALUE;
pub use answers::PARTIAL;
pub use answers::REFUSED;
pub use answers::WAITS;
pub use answers::WHOLE;
pub use building::dbus_wire_build;
pub use building::dbus_wire_rebuild;
pub use building::dbus_wire_reply_to;
pub use checkers::Taken;
pub use checkers::dbus_wire_checker_free;
pub use checkers::dbus_wire_checker_new;
pub use checkers::dbus_wire_checker_restart;
pub use checkers::dbus_wire_checker_take;
pub use checking::Checked;
pub use checking::dbus_wire_check;
pub use connections::ConnectionStep;
pub use connections::dbus_wire_connection_call;
pub use connections::dbus_wire_connection_descriptor;
pub use connections::dbus_wire_connection_free;
pub use connections::dbus_wire_connection_give_up;
pub use connections::dbus_wire_connection_new;
pub use connections::dbus_wire_connection_serial;
pub use connections::dbus_wire_connection_take;
pub use connections::dbus_wire_connection_unsent;
pub use drafts::DraftText;
pub use drafts::WireDraft;
pub use explaining::Explained;
pub use explaining::InputPlace;
pub use explaining::dbus_wire_explain;
pub use flattening::dbus_wire_flatten;
pub use flattening::dbus_wire_flatten_fields;
pub use from_json::dbus_wire_from_json;
pub use given_limits::ANY_INDEX;
pub use given_limits::INDEX_BELOW_COUNT;
pub use given_limits::WireLimits;
pub use given_limits::dbus_wire_specification_limits;
pub use handshake_lines::HandshakeLine;
pub use handshake_lines::dbus_wire_client_line;
pub use handshake_lines::dbus_wire_server_line;
pub use handshakes::HandshakeStep;
pub use handshakes::dbus_wire_client_new;
pub use handshakes::dbus_wire_handshake_agreed;
pub use handshakes::dbus_wire_handshake_bound;
pub use handshakes::dbus_wire_handshake_free;
pub use handshakes::dbus_wire_handshake_guid;
pub use handshakes::dbus_wire_handshake_take;
pub use handshakes::dbus_wire_server_new;
pub use json_lines::WireLinePlace;
pub use json_lines::dbus_wire_json;
pub use json_reasons::json_field_named;
pub use json_reasons::json_reason_number;
pub use names::dbus_wire_reason_name;
pub use parts::TextPlace;
pub use parts::WireParts;
pub use parts::dbus_wire_parts_of;
pub use reading::dbus_wire_read;
pub use reasons::field_named;
pub use reasons::reason_number;
pub use rule_reasons::NOT_UTF8;
pub use rule_reasons::dbus_wire_rule_reason_name;
pub use rule_reasons::rule_reason_number;
pub use rules::RuleRefused;
pub use rules::dbus_wire_rules_add;
pub use rules::dbus_wire_rules_as_bus;
pub use rules::dbus_wire_rules_free;
pub use rules::dbus_wire_rules_matching;
pub use rules::dbus_wire_rules_may_match;
pub use rules::dbus_wire_rules_owner;
pub use rules::dbus_wire_rules_remove;
pub use rules::dbus_wire_rules_text;
pub use swapping::dbus_wire_swap;
pub use texts::TextChecked;
pub use texts::dbus_wire_text_check;
pub use version::VERSION;
pub use version::dbus_wire_version;
pub use wanted::dbus_wire_wanted;
pub use watching::HandshakeWatch;
pub use watching::dbus_wire_watch_client;
pub use watching::dbus_wire_watch_server;
pub use whole_parts::dbus_wire_flatten_whole;
pub use writers::WireArray;
pub use writers::WireWriter;
pub use writers::dbus_wire_begin_struct;
pub use writers::dbus_wire_close_array;
pub use writers::dbus_wire_open_array;
pub use writers::dbus_wire_put_number;
pub use writers::dbus_wire_put_signature;
pub use writers::dbus_wire_put_text;
