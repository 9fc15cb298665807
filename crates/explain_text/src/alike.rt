// A catalog in which all connections declare the same.

ghost use Rattle.std.specs.Prelude.{All, IfOk};
ghost use Rattle.decl_words.specs.Sound.{IsSound};
ghost use Rattle.sql_bind.specs.Known.{declaration_of};
ghost use Rattle.explain_text.specs.Alike.{DeclareAlike};
ghost use Rattle.explain_text.specs.Explained.{AreSound};

use sp_model::{Declaration, Settings};
use sp_value::{Memory, TryCopy};
use sql_bind::Catalog;
use std::alloc::Global;

/// The settings, in which each connection declares this.
pub fn declared_alike(
    alloc: Global,
    settings: &Settings,
    declaration: &Declaration,
) -> Result<Catalog, Memory>
    requires sound { All IsSound declaration.now.tables }
    ensures alike { IfOk result (DeclareAlike settings.now declaration.now) }
    ensures sound { IfOk result (λ c. AreSound (declaration_of c)) }
{
    let mut catalog = Catalog::of(alloc, settings)?;
    for connection in settings.connections.as_slice() {
        let declaration = declaration.copy(alloc)?;
        catalog.set(&connection.name, declaration);
    }
    Ok(catalog)
}
