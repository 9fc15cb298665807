//! Tables, as a plugin declares them.

ghost use Rattle.std.specs.Prelude.{All, IfSome};
ghost use Rattle.decl_words.specs.Sound.{IsSound};

use crate::random::Random;
use decl_core::read_declaration;
use serde_json::Value;
use sp_model::{Access, Declaration, TableDecl};
use sqlite_items::Items;
use std::alloc::Global;

/// A table, in which `@` stands where rules may stand: its columns, its functions, and how its items are asked for.
const COLUMNS: &str = r#"{"tables":[{"name":"item","columns":[
  {"name":"name","kind":"text"},{"name":"size","kind":"int"},
  {"name":"first","kind":"int","function":"f0","field":"size"},
  {"name":"second","kind":"json","function":"f1","field":"size"},
  {"name":"third","kind":"text","function":"f2","field":"name"}],"#;

const FUNCTIONS: [&str; 5] = [
    r#"{"name":"f0"@},{"name":"f1"@},{"name":"f2"@}"#,
    r#"{"name":"f0"@},{"name":"f1","depends":["f0"]@},{"name":"f2","depends":["f0"]@}"#,
    r#"{"name":"f0"@},{"name":"f1","depends":["f0"]@},{"name":"f2","depends":["f1","f0"]@}"#,
    r#"{"name":"f0","depends":["f1","f2"]@},{"name":"f1","depends":["f2"]@},{"name":"f2"@}"#,
    r#"{"name":"f2"@},{"name":"f1"@},{"name":"f0","depends":["f2"]@}"#,
];

const LIST: &str =
    r#""list":{"function":"list","keys":[{"column":"size","operators":[">","<="],"require":"optional","match":"exact"}]@}@}]@}"#;

const PARENTS: &str =
    r#""list":{"function":"list","keys":[{"column":"size","operators":[">","<="],"require":"optional","match":"exact"}],"parent":{"function":"parents"@}@}@}]@}"#;

const GET: &str = r#""get":{"function":"get","keys":[{"column":"name","match":"exact"}]@}@}]@}"#;

const RULES: [&str; 8] = [
    "",
    "",
    "",
    r#","ignore":["gone*"]"#,
    r#","ignore":[]"#,
    r#","retry":{"patterns":["busy*"],"attempts":3,"backoff":"exponential","interval":20}"#,
    r#","retry":{"patterns":[],"attempts":1,"backoff":"fibonacci","interval":1}"#,
    r#","ignore":["gone*","busy: later"],"retry":{"patterns":["*"],"attempts":2,"backoff":"constant","interval":5}"#,
];

fn access_text(access: Access) -> &'static str {
    match access {
        Access::List => LIST,
        Access::Parents => PARENTS,
        Access::Get => GET,
    }
}

/// A text with rules in the places of its `@`.
fn with_rules(alloc: Global, random: &mut Random, text: &str) -> Option<String> {
    let mut parts = text.split("@");
    let mut ruled = String::from_str(alloc, parts.next()?).ok()?;
    for part in parts {
        ruled.push_str(random.pick(&RULES)).ok()?;
        ruled.push_str(part).ok()?;
    }
    Some(ruled)
}

fn declaration_of(alloc: Global, text: &str) -> Option<Declaration>
    ensures { IfSome result (λ d. All IsSound d.tables) }
{
    read_declaration(alloc, &Value::from_str(alloc, text).ok()?).ok()
}

fn last_of(mut tables: Items<TableDecl>) -> Option<TableDecl>
    requires { All IsSound tables }
    ensures { IfSome result IsSound }
{
    tables.pop()
}

/// The table that a text declares.
pub fn declared(alloc: Global, text: &str) -> Option<TableDecl>
    ensures { IfSome result IsSound }
{
    let declaration = declaration_of(alloc, text)?;
    last_of(declaration.tables)
}

/// A table whose items are asked for in a way.
pub fn table(alloc: Global, random: &mut Random, access: Access) -> Option<TableDecl>
    ensures { IfSome result IsSound }
{
    let functions = random.pick(&FUNCTIONS);
    let access = access_text(access);
    let text = format!(in alloc; "{COLUMNS}\"functions\":[{functions}],{access}").ok()?;
    let text = with_rules(alloc, random, text.as_str())?;
    declared(alloc, text.as_str())
}
