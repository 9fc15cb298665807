ghost use Rattle.std.specs.Prelude.{◌≡◌, IfSome};
ghost use Rattle.serde_json.specs.View as json;
ghost use Rattle.sp_model.specs.Sayable.{IsSayableDeclaration};

use serde_json::Value;
use sp_value::has_odd_number;
use sp_world::is_shallow_object;
use std::marker::Model;

/// A declaration that a reply line can say: an object that nests at most 100 deep, with integers of 64 bits alone.
#[derive(Drop)]
pub(crate) struct Declared {
    value: Value,
}

impl Model for Declared {
    ghost use Rattle.std.specs.Coded.{codes};
    ghost use Rattle.serde_json.specs.contracts.value.Value as values;
    ghost use Rattle.serde_json.specs.declared.value.Value as declared;
    ghost use Rattle.serde_json.specs.View as json;
    ghost use Rattle.sp_model.specs.Sayable.{IsSayableDeclaration};

    ghost Value = { declared.Value };

    ghost coded = { Prim.hlevel (codes, values.the_row.coded) };

    ghost view = { λ d. d.value };

    ghost invariant = { λ d. IsSayableDeclaration (json.view d.value) };
}

impl Declared {
    /// The declaration, if a line can say it.
    pub(crate) fn of(value: Value) -> Option<Declared>
        ensures { IfSome result (λ d. d ≡ value) }
    {
        if !is_shallow_object(&value) || has_odd_number(&value) {
            return None;
        }
        Some(Declared { value })
    }

    pub(crate) fn value(&self) -> &Value
        ensures value { result.now ≡ self.now }
        ensures form { IsSayableDeclaration (json.view result.now) }
    {
        &self.value
    }
}
