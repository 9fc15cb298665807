// Mail, as a statement takes it that waits for one connection.

ghost use Rattle.std.specs.Prelude.{◌≡◌, Contains, IfOk, IfErr, IfSome};
ghost use Rattle.desk.specs.States.{DeskState};
ghost use Rattle.statement_words.specs.Runs.{IsLater, IsGone, IsSpentOf};

use crate::places::is_plain_at;
use crate::posting::drive;
use desk::{Desk, Mail};
use sp_model::{Seat, Settings};
use sp_value::{Text, TryCopy};
use sp_world::{ToldLine, World};
use statement_words::Stop;
use std::alloc::Global;

/// The stop for a connection that is gone.
fn spent(alloc: Global, connection: &Text, losses: u32) -> Stop
    ensures { (s : DeskState) → IsGone s connection.now losses → IsSpentOf s connection.now result }
{
    match connection.copy(alloc) {
        Ok(connection) => Stop::RestartsSpent { connection, losses },
        Err(_) => Stop::Memory,
    }
}

/// Stops where a connection that is gone is this one.
fn unless_gone<W: World, D: Desk<W>>(
    alloc: Global,
    desk: &D,
    settings: &Settings,
    connection: &Text,
    number: u32,
    losses: u32,
) -> Result<(), Stop>
    requires settings { (D.state desk.now).settings ≡ settings.now }
    requires known { Contains (D.state desk.now).gone (number, losses) }
    ensures { IfErr result (IsSpentOf (D.state desk.now) connection.now) }
{
    if is_plain_at(settings, number, connection) {
        return Err(spent(alloc, connection, losses));
    }
    Ok(())
}

/// Takes one mail, or moves calls on where there is none. Gives what is told for the seats of a number. It stops where this connection is
/// gone.
pub fn take_line<W: World, D: Desk<W>>(
    alloc: Global,
    desk: &mut D,
    settings: &Settings,
    connection: &Text,
    seats: u64,
) -> Result<Option<(Seat, ToldLine<W>)>, Stop>
    requires settings { (D.state desk.old).settings ≡ settings.now }
    ensures seat { IfOk result (λ line. IfSome line (λ l. l.0.scan ≡ seats)) }
    ensures state { IsLater (D.state desk.old) (D.state desk.new) }
    ensures err { IfErr result (IsSpentOf (D.state desk.new) connection.now) }
{
    match desk.take_mail() {
        Some(
            Mail::Gone {
                connection: number,
                losses,
            },
        ) => {
            unless_gone::<W, D>(alloc, desk, settings, connection, number, losses)?;
            Ok(None)
        }
        Some(Mail::Piece { seat, told }) => {
            if seat.scan == seats {
                return Ok(Some((seat, told)));
            }
            Ok(None)
        }
        None => {
            drive::<W, D>(desk)?;
            Ok(None)
        }
    }
}
