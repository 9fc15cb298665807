ghost use Rattle.std.specs.Prelude.{◌≡◌, map};
ghost use Rattle.serde_json.specs.View as json;
ghost use Rattle.toml.specs.View as toml;
ghost use Rattle.decl_words.specs.Members.{has_only};
ghost use Rattle.read_members.specs.Tables.{table_has_only};

use crate::names::are_among;

/// Whether a JSON value is an object with members of these names and no other.
pub fn object_has_only(value: &serde_json::Value, names: &[&str]) -> bool
    ensures { result ≡ has_only (map (λ n. n.now) names.entry.now) (json.view value.now) }
{
    match value {
        serde_json::Value::Object(members) => are_among(names, members),
        _ => false,
    }
}

/// Whether a TOML value is a table with keys of these names and no other.
pub fn table_has_only(value: &toml::Value, names: &[&str]) -> bool
    ensures { result ≡ table_has_only (map (λ n. n.now) names.entry.now) (toml.view value.now) }
{
    match value {
        toml::Value::Table(members) => are_among(names, members),
        _ => false,
    }
}
