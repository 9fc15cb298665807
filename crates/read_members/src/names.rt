ghost use Rattle.std.specs.Prelude.{◌≡◌, map, string_bytes};
ghost use Rattle.std.specs.List.{list_all};
ghost use Rattle.sp_model.specs.Names.{has_name};

use std::collections::BTreeMap;

/// Whether a name is one of these.
pub fn has_name(names: &[&str], name: &str) -> bool
    ensures { result ≡ has_name (map (λ n. n.now) names.entry.now) name.now }
{
    for known in names {
        if name == *known {
            return true;
        }
    }
    false
}

/// Whether all members have one of these names.
pub(crate) fn are_among<V>(names: &[&str], members: &BTreeMap<String, V>) -> bool
    ensures { result ≡ list_all (λ m. has_name (map (λ n. n.now) names.entry.now) (string_bytes m.0)) members.now.entries }
{
    for (name, _member) in members.iter() {
        if !has_name(names, name.as_str()) {
            return false;
        }
    }
    true
}
