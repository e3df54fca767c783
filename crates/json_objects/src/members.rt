//! Members of objects.
ghost use Rattle.std.specs.Prelude.{◌≡◌, ◌≤◌, IfSome, option_map, map};
ghost use Rattle.std.specs.List.{list_any};
ghost use Rattle.std.specs.Str.{bytes_eq};
ghost use Rattle.serde_json.specs.Data.{depth};
ghost use Rattle.serde_json.specs.Find.{get};
ghost use Rattle.serde_json.specs.Read.{max_depth};
ghost use Rattle.serde_json.specs.View.{view, members_view};
ghost use Rattle.json_objects.specs.Bodies.{IsBody};
ghost use Rattle.json_objects.specs.Members.{other_name, other_member};

use serde_json::{Map, Value};

/// The member of that name. Where the value may be a body, so may the member.
pub fn member<'v>(value: &'v Value, name: &str) -> Option<&'v Value>
    ensures found { option_map (λ v. view v.now) result ≡ get name.now (view value.now) }
    ensures body { IsBody (view value.now) → IfSome result (λ v. IsBody (view v.now)) }
{
    value.get(name)
}

/// The member of that name of a value that was read. Like the value, it has at most 127 levels.
pub fn member_within<'v>(value: &'v Value, name: &str) -> Option<&'v Value>
    requires { depth (view value.now) ≤ max_depth }
    ensures found { option_map (λ v. view v.now) result ≡ get name.now (view value.now) }
    ensures shallow { IfSome result (λ v. depth (view v.now) ≤ max_depth) }
{
    value.get(name)
}

/// The name of the first member that has none of these names, in the ascending byte order of names. A value that is no object has no members.
pub fn other_member<'v>(value: &'v Value, names: &[&str]) -> Option<&'v str>
    ensures { option_map (λ n. n.now) result ≡ other_member (map (λ n. n.now) names.now) (view value.now) }
{
    other_name(value.as_object()?, names)
}

fn other_name<'v>(members: &'v Map<String, Value>, names: &[&str]) -> Option<&'v str>
    ensures { option_map (λ n. n.now) result ≡ other_name (map (λ n. n.now) names.now) (members_view members.now.entries) }
{
    for (key, _) in members.iter() {
        if !is_among(key.as_str(), names) {
            return Some(key.as_str());
        }
    }
    None
}

fn is_among(name: &str, names: &[&str]) -> bool
    ensures { result ≡ list_any (bytes_eq name.now) (map (λ n. n.now) names.now) }
{
    for other in names {
        if name == *other {
            return true;
        }
    }
    false
}
