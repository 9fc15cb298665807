//! What a load runs.

ghost use Rattle.std.specs.Prelude.{◌≡◌, [], ◌∷◌, codes, IfOk, string_bytes};
ghost use Rattle.load_gen.specs.Summary.{connection, load_settings, statement};

use sp_model::{Connection, Options, Settings};
use sp_value::{Memory, Text, Texts};
use sqlite_items::Items;
use std::alloc::Global;

fn gen_text(alloc: Global) -> Result<Text, Memory>
    ensures { IfOk result (λ text. text ≡ codes "gen") }
{
    Text::from_str(alloc, "gen")
}

fn command(alloc: Global) -> Result<Texts, Memory>
    ensures { IfOk result (λ texts. texts ≡ codes "gen" ∷ []) }
{
    let mut texts = Texts::new(alloc);
    texts.push(gen_text(alloc)?)?;
    Ok(texts)
}

fn connection(alloc: Global) -> Result<Connection, Memory>
    ensures { IfOk result (λ c. c ≡ connection) }
{
    let name = gen_text(alloc)?;
    let plugin = gen_text(alloc)?;
    let command = command(alloc)?;
    Ok(Connection {
        name,
        plugin,
        command,
        aggregator: false,
        connections: Texts::new(alloc),
        members: Texts::new(alloc),
    })
}

fn connections(alloc: Global) -> Result<Items<Connection>, Memory>
    ensures { IfOk result (λ cs. cs ≡ connection ∷ []) }
{
    let mut connections = Items::new(alloc);
    connections.push(connection(alloc)?)?;
    Ok(connections)
}

/// The settings of a load: one connection `gen`, the options of a settings file that says none, and no limiter.
pub fn load_settings(alloc: Global) -> Result<Settings, Memory>
    ensures { IfOk result (λ settings. settings ≡ load_settings) }
{
    let connections = connections(alloc)?;
    Ok(Settings {
        options: Options {
            cache: true,
            cache_ttl: 300_000,
            cache_max: 64,
            window: 256,
            restarts: 3,
        },
        connections,
        limiters: Items::new(alloc),
    })
}

/// The statement of a load of so many rows.
pub fn load_statement(alloc: Global, count: u64) -> Result<String, Memory>
    ensures { IfOk result (λ text. string_bytes text ≡ statement count) }
{
    let text = format!(in alloc; "select id, owner, score from gen.row where size = {count}")?;
    Ok(text)
}
