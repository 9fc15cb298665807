// What one connection declares.

ghost use Rattle.std.specs.Prelude.{◌≡◌, ℕ, Bool, true, List, Ok, IsTrue, IfOk, IfErr, MatchResult};
ghost use Rattle.serde_json.specs.View.{view};
ghost use Rattle.decl_words.specs.BookTables.{book_declaration};
ghost use Rattle.decl_words.specs.Reading.{read_declaration};
ghost use Rattle.desk.specs.States.{DeskState};
ghost use Rattle.sp_model.specs.Book.{Book};
ghost use Rattle.sp_model.specs.Names.{has_name};
ghost use Rattle.sp_model.specs.declared.call.Asked.TheVariants as asks;
ghost use Rattle.statement_words.specs.Runs.{plain_names, IsLater, IsSpentOf};
ghost use Rattle.declaration_run.specs.Declaring.{IsRead};
ghost use Rattle.declaration_run.specs.Read.{IsRefusalOf, IsUnreadOf, IsUnasked};

use crate::undeclared::Undeclared;
use decl_core::read_declaration;
use decl_words::DeclFault;
use desk::Desk;
use desk_asking::{ask_declaration, plain_named};
use serde_json::Value;
use sp_model::{Declaration, Settings};
use sp_value::{Text, TryCopy};
use sp_world::{Told, World};
use statement_words::Stop;
use std::alloc::Global;
use std::sync::Wait;

fn refused(alloc: Global, connection: &Text, fault: DeclFault) -> Undeclared
    ensures { IsRefusalOf connection.now fault result }
{
    match connection.copy(alloc) {
        Ok(connection) => Undeclared::Refused { connection, fault },
        Err(_) => Undeclared::Memory,
    }
}

/// The declaration that a connection's value is.
fn read(alloc: Global, connection: &Text, value: &Value) -> Result<Declaration, Undeclared>
    ensures { MatchResult result (λ d. read_declaration (view value.now) ≡ Ok d) (IsUnreadOf connection.now (read_declaration (view value.now))) }
{
    match read_declaration(alloc, value) {
        Ok(declaration) => Ok(declaration),
        Err(DeclFault::Memory) => Err(Undeclared::Memory),
        Err(fault) => Err(refused(alloc, connection, fault)),
    }
}

/// What is told of a connection's declaration, read.
fn read_told<W: World>(
    alloc: Global,
    connection: &Text,
    told: Told<W, Value>,
) -> Result<Declaration, Undeclared>
    requires { told.0 ≡ asks.Declare connection.now }
    ensures declared { IsTrue W.tells → IfOk result (λ d. book_declaration W.book connection.now ≡ Ok d) }
    ensures read { IfOk result IsRead }
    ensures undeclared { (s : DeskState) → IfErr result (IsUnasked W.tells W.book s connection.now) }
{
    read(alloc, connection, told.get())
}

/// Why a connection has no declaration whose restarts are spent.
fn unasked(stop: Stop) -> Undeclared
    ensures { (tells : Bool) (book : Book) (s : DeskState) (connection : List ℕ) → IsSpentOf s connection stop → IsUnasked tells book s connection result }
{
    match stop {
        Stop::RestartsSpent { connection, losses } => Undeclared::RestartsSpent {
            connection,
            losses,
        },
        _ => Undeclared::Memory,
    }
}

/// What a plain connection of the settings declares.
pub(crate) fn asked<R: Wait, W: World, D: Desk<W>>(
    rt: &R,
    alloc: Global,
    desk: &mut D,
    settings: &Settings,
    connection: &Text,
) -> Result<Declaration, Undeclared>
    requires settings { (D.state desk.old).settings ≡ settings.now }
    requires plain { has_name (plain_names settings.now.connections) connection.now ≡ true }
    ensures declared { IsTrue W.tells → IfOk result (λ d. book_declaration W.book connection.now ≡ Ok d) }
    ensures read { IfOk result IsRead }
    ensures undeclared { IfErr result (IsUnasked W.tells W.book (D.state desk.new) connection.now) }
    ensures state { IsLater (D.state desk.old) (D.state desk.new) }
{
    let plain = plain_named(settings.connections.as_slice(), connection);
    match ask_declaration::<R, W, D>(rt, alloc, desk, settings, plain) {
        Ok(told) => read_told::<W>(alloc, connection, told),
        Err(stop) => Err(unasked(stop)),
    }
}
