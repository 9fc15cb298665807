//! The worlds that are written as types.

use crate::text_world::BookText;

/// Items 1, ant, and 2, bee.
pub(crate) struct AntAndBee;

const ANT_AND_BEE: &str = r#"{
"declaration":{"tables":[{"name":"item","columns":[{"name":"id","kind":"int"},{"name":"name","kind":"text"}],"list":{"function":"listItems"}}]},
"replies":[
{"call":{"attempt":1,"conditions":[],"connection":"c","function":null,"id":0,"op":"list","parent":null,"table":"item","version":7},
 "items":[{"id":1,"name":"ant"},{"id":2,"name":"bee"}]}
]}"#;

impl BookText for AntAndBee {
    ghost use Rattle.worked_runs.specs.declared.worlds.TheConstants.{ANT_AND_BEE};

    ghost text = { ANT_AND_BEE.now };

    fn text() -> &'static str {
        ANT_AND_BEE
    }
}
