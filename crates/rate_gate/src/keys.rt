ghost use Rattle.std.specs.Prelude.{◌≡◌, ◌+◌, ◌≤◌, ◌++◌, [], length, map, OnOk, IfOk};
ghost use Rattle.std.specs.Option.{unwrap_or};
ghost use Rattle.std.specs.Vec.{vec_capacity};
ghost use Rattle.rate_gate.specs.Keys.{spelled, key_of};
ghost use Rattle.rate_gate.specs.Limits.{value_of};

use crate::scope::value_bytes;
use sp_model::Pair;
use sp_value::{Memory, Text};

fn push_value(key: &mut Vec<u16>, value: &[u8])
    requires { length key.old.items + length (spelled value.now) ≤ vec_capacity key.old }
    ensures items { key.new.items ≡ key.old.items ++ spelled value.now }
    ensures room { vec_capacity key.new ≡ vec_capacity key.old }
{
    for byte in value {
        key.push_reserved(u16::from(*byte) + 1);
    }
    key.push_reserved(0);
}

/// Makes `key` that of the values which pairs have for the names of a scope.
pub fn write_key(key: &mut Vec<u16>, scope: &[Text], pairs: &[Pair])
    requires { length (key_of (map (λ name. unwrap_or (value_of name pairs.now) []) scope.now)) ≤ vec_capacity key.old }
    ensures items { key.new.items ≡ key_of (map (λ name. unwrap_or (value_of name pairs.now) []) scope.now) }
    ensures room { vec_capacity key.new ≡ vec_capacity key.old }
{
    key.clear();
    for name in scope {
        push_value(key, value_bytes(pairs, name));
    }
}

fn key_len(scope: &[Text], pairs: &[Pair]) -> Result<usize, Memory>
    ensures { IfOk result (λ n. n ≡ length (key_of (map (λ name. unwrap_or (value_of name pairs.now) []) scope.now))) }
{
    let mut total = 0usize;
    for name in scope {
        let value = value_bytes(pairs, name);
        let Some(more) = value.len().checked_add(1) else {
            return Err(Memory);
        };
        let Some(sum) = total.checked_add(more) else {
            return Err(Memory);
        };
        total = sum;
    }
    Ok(total)
}

/// Makes room in `key` for that key.
pub fn make_room(key: &mut Vec<u16>, scope: &[Text], pairs: &[Pair]) -> Result<(), Memory>
    ensures ok { OnOk result (length (key_of (map (λ name. unwrap_or (value_of name pairs.now) []) scope.now)) ≤ vec_capacity key.new) }
    ensures room { vec_capacity key.old ≤ vec_capacity key.new }
{
    let room = key_len(scope, pairs)?;
    key.clear();
    key.reserve(room)?;
    Ok(())
}
