//! Times that may be unknown.
#![tactic(auto)]

ghost use Rattle.std.specs.Prelude.{◌≡◌};
ghost use Rattle.dbus_page.specs.Places.{time_if};

/// The time, if `has_time` says that it is known: if that is not 0.
pub(crate) fn time_if(has_time: u64, time: u64) -> Option<u64>
    ensures { result ≡ time_if has_time time }
{
    if has_time == 0 { None } else { Some(time) }
}
