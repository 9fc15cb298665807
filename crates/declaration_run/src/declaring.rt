// What the connections of a statement declare.

ghost use Rattle.std.specs.Prelude.{◌≡◌, ◌<◌, ◌+◌, length, take, get_or, true, IsTrue, IsSome, IfErr, OnOk};
ghost use Rattle.sp_model.specs.Names.{has_name};
ghost use Rattle.sql_bind.specs.Known.{declaration_of};
ghost use Rattle.statement_words.specs.Runs.{plain_names, IsLater};
ghost use Rattle.declaration_run.specs.Declaring.{IsTold, AreRead, StayDeclared, ArePlain, AreDone, IsFirstUndeclared};
ghost use Rattle.declaration_run.specs.Read.{IsDifference, IsUnasked};

use crate::agreeing::agrees;
use crate::asking::asked;
use crate::undeclared::Undeclared;
use desk::Desk;
use sp_value::{Text, Texts, TryCopy};
use sp_world::World;
use sql_bind::Catalog;
use std::alloc::Global;
use std::sync::Wait;

/// Asks a connection for its declaration, where the catalog doesn't have it.
#[tactic(auto, using(crate::proofs::Catalogs::plain_is_known, statement_words::proofs::Stops::later_refl))]
fn declare_one<R: Wait, W: World, D: Desk<W>>(
    rt: &R,
    alloc: Global,
    desk: &mut D,
    catalog: &mut Catalog,
    connection: &Text,
) -> Result<(), Undeclared>
    requires settings { (D.state desk.old).settings ≡ catalog.old.settings }
    requires plain { has_name (plain_names catalog.old.settings.connections) connection.now ≡ true }
    requires told { IsTrue W.tells → IsTold W.book catalog.old }
    requires read { AreRead catalog.old }
    ensures settings { catalog.new.settings ≡ catalog.old.settings }
    ensures told { IsTrue W.tells → IsTold W.book catalog.new }
    ensures read { AreRead catalog.new }
    ensures declared { OnOk result (IsSome (declaration_of catalog.new connection.now)) }
    ensures stay { StayDeclared catalog.old catalog.new }
    ensures unasked { IfErr result (IsUnasked W.tells W.book (D.state desk.new) connection.now) }
    ensures state { IsLater (D.state desk.old) (D.state desk.new) }
{
    if catalog.declaration(connection).is_some() {
        return Ok(());
    }
    match asked::<R, W, D>(rt, alloc, desk, catalog.settings(), connection) {
        Ok(declaration) => {
            catalog.set(connection, declaration);
            Ok(())
        }
        Err(undeclared) => Err(undeclared),
    }
}

fn difference(alloc: Global, connection: &Text) -> Undeclared
    ensures { IsDifference connection.now result }
{
    match connection.copy(alloc) {
        Ok(connection) => Undeclared::Differs { connection },
        Err(_) => Undeclared::Memory,
    }
}

/// Has the connection at a place declared, where those before it are, and agree.
#[tactic(auto, using(crate::proofs::Loops::is_unasked, crate::proofs::Loops::is_different, crate::proofs::Loops::is_plain))]
fn declare_at<R: Wait, W: World, D: Desk<W>>(
    rt: &R,
    alloc: Global,
    desk: &mut D,
    catalog: &mut Catalog,
    connections: &[Text],
    groups: &[Texts],
    place: usize,
    connection: &Text,
) -> Result<(), Undeclared>
    requires within { place < length connections.now }
    requires at { connection.now ≡ get_or connections.now place connection.now }
    requires settings { (D.state desk.old).settings ≡ catalog.old.settings }
    requires plain { ArePlain catalog.old.settings connections.now }
    requires told { IsTrue W.tells → IsTold W.book catalog.old }
    requires read { AreRead catalog.old }
    requires done { AreDone catalog.old groups.now (take place connections.now) }
    ensures settings { catalog.new.settings ≡ catalog.old.settings }
    ensures told { IsTrue W.tells → IsTold W.book catalog.new }
    ensures read { AreRead catalog.new }
    ensures stay { StayDeclared catalog.old catalog.new }
    ensures done { OnOk result (AreDone catalog.new groups.now (take (place + 1) connections.now)) }
    ensures undeclared { IfErr result (IsFirstUndeclared W.tells W.book (D.state desk.new) catalog.new connections.now groups.now) }
    ensures state { IsLater (D.state desk.old) (D.state desk.new) }
{
    declare_one::<R, W, D>(rt, alloc, desk, catalog, connection)?;
    let so_far = &connections[..place + 1];
    if agrees(catalog, so_far, groups, connection) {
        Ok(())
    } else {
        Err(difference(alloc, connection))
    }
}

/// Asks the connections whose declarations the catalog doesn't have, in order, up to the first without one. Those of a group have to declare
/// the same.
#[tactic(auto, using(crate::proofs::Loops::none_yet, crate::proofs::Loops::all_done, statement_words::proofs::Stops::later_refl, statement_words::proofs::Stops::later_then))]
pub fn declare_all<R: Wait, W: World, D: Desk<W>>(
    rt: &R,
    alloc: Global,
    desk: &mut D,
    catalog: &mut Catalog,
    connections: &[Text],
    groups: &[Texts],
) -> Result<(), Undeclared>
    requires settings { (D.state desk.old).settings ≡ catalog.old.settings }
    requires plain { ArePlain catalog.old.settings connections.now }
    requires told { IsTrue W.tells → IsTold W.book catalog.old }
    requires read { AreRead catalog.old }
    ensures settings { catalog.new.settings ≡ catalog.old.settings }
    ensures told { IsTrue W.tells → IsTold W.book catalog.new }
    ensures read { AreRead catalog.new }
    ensures stay { StayDeclared catalog.old catalog.new }
    ensures done { OnOk result (AreDone catalog.new groups.now connections.now) }
    ensures undeclared { IfErr result (IsFirstUndeclared W.tells W.book (D.state desk.new) catalog.new connections.now groups.now) }
    ensures state { IsLater (D.state desk.old) (D.state desk.new) }
{
    for (place, connection) in connections.iter().enumerate() {
        declare_at::<R, W, D>(
            rt,
            alloc,
            desk,
            catalog,
            connections,
            groups,
            place,
            connection,
        )?;
    }
    Ok(())
}
