//! Objects whose keys are given.
ghost use Rattle.std.specs.Prelude.{◌≡◌, option_map};
ghost use Rattle.serde_json.specs.View.{members_view, view};
ghost use Rattle.cpi_proc.specs.Object.{first_member, first_two, is_last};

use serde_json::Value;
use std::collections::btree_map::Iter;

/// The value of the next member, where it has this key.
#[tactic(auto, unfolding(crate::specs::Object::first_member))]
pub(crate) fn next_value<'a>(members: &mut Iter<'a, String, Value>, key: &str) -> Option<&'a Value>
    ensures { option_map (λ value. (view value.now, members_view members.new)) result ≡ first_member key.now (members_view members.old) }
{
    match members.next() {
        Some((found, value)) if found.as_str() == key => Some(value),
        _ => None,
    }
}

/// The values of the next two members, where they have these keys.
#[tactic(auto, unfolding(crate::specs::Object::first_two))]
pub(crate) fn next_two<'a>(
    members: &mut Iter<'a, String, Value>,
    first: &str,
    second: &str,
) -> Option<(&'a Value, &'a Value)>
    ensures { option_map (λ both. (view both.0.now, view both.1.now, members_view members.new)) result ≡ first_two first.now second.now (members_view members.old) }
{
    let value = next_value(members, first)?;
    let other = next_value(members, second)?;
    Some((value, other))
}

/// Whether no members are left.
pub(crate) fn is_last(members: &mut Iter<'_, String, Value>) -> bool
    ensures { result ≡ is_last (members_view members.old) }
{
    members.next().is_none()
}
