ghost use Rattle.std.specs.Prelude.{◌≡◌, ◌≤◌, length, Some, IsTrue, is_some};
ghost use Rattle.sp_model.specs.declared.call.Asked.TheVariants as asked;
ghost use Rattle.sp_world.specs.Fits.{Fits, told_by, book_answer};
ghost use Rattle.sp_world.specs.Told as told;
ghost use Rattle.sp_world.specs.Pieces.{IsSoundPiece, IsSoundVersion};
ghost use Rattle.sp_world.specs.ReplyLines.{IsLineForm, seen};
ghost use Rattle.serde_json.specs.View.{view};
ghost use Rattle.std.specs.Arc.{arc_value};
ghost use Rattle.child_link.specs.Arrivals.{number_of, shown, replied};

use serde_json::Value;
use sp_model::{Asked, CallKey, Ending, Piece, Version};
use sp_value::Text;
use sp_world::{Line, Told, ToldLine, World};
use std::alloc::Global;
use std::sync::Arc;

/// The most items that a reply has.
const MOST_ITEMS: u64 = 999_999;

/// The number that a line names.
pub(crate) fn number_of(line: &Line) -> u64
    ensures { result ≡ number_of (seen line.now) }
{
    match line {
        Line::Item { id, item: _ } => *id,
        Line::End { id } => *id,
        Line::Error { id, text: _ } => *id,
        Line::Version { id, version: _ } => *id,
        Line::Declaration { id, value: _ } => *id,
    }
}

/// Whether a line answers what was asked, at a place of its reply.
pub(crate) fn fits(asked: &Asked, place: u64, line: &Line) -> bool
    ensures { result ≡ is_some (told_by asked.now place (seen line.now)) }
{
    match asked {
        Asked::Call(_) => match line {
            Line::Item { id: _, item: _ } => place < MOST_ITEMS,
            Line::End { id: _ } => true,
            Line::Error { id: _, text: _ } => true,
            _ => false,
        },
        Asked::Version {
            connection: _,
            tick: _,
        } => match line {
            Line::Version { id: _, version: _ } => true,
            Line::Error { id: _, text: _ } => true,
            _ => false,
        },
        Asked::Declare { connection: _ } => match line {
            Line::Declaration { id: _, value: _ } => true,
            _ => false,
        },
    }
}

fn piece_of(_key: &CallKey, place: u64, line: Line) -> Piece
    requires fits { Fits (asked.Call _key.now) place (seen line) }
    requires form { IsLineForm (seen line) }
    ensures told { told_by (asked.Call _key.now) place (seen line) ≡ Some (told.Piece result) }
    ensures sound { IsSoundPiece result }
{
    match line {
        Line::Item { id: _, item } if place < MOST_ITEMS => Piece::Item { place, item },
        Line::End { id: _ } => Piece::Ending {
            count: place,
            ending: Ending::End,
        },
        Line::Error { id: _, text } => Piece::Ending {
            count: place,
            ending: Ending::Error(text),
        },
        _ => unreachable!(),
    }
}

fn version_of(_connection: &Text, _tick: u64, _place: u64, line: Line) -> Version
    requires fits { Fits (asked.Version _connection.now _tick) _place (seen line) }
    requires form { IsLineForm (seen line) }
    ensures told { told_by (asked.Version _connection.now _tick) _place (seen line) ≡ Some (told.Version result) }
    ensures sound { IsSoundVersion result }
{
    match line {
        Line::Version { id: _, version } => Version::Is(version),
        Line::Error { id: _, text } => Version::Bad(text),
        _ => unreachable!(),
    }
}

fn declaration_of(_connection: &Text, _place: u64, line: Line) -> Value
    requires fits { Fits (asked.Declare _connection.now) _place (seen line) }
    ensures told { told_by (asked.Declare _connection.now) _place (seen line) ≡ Some (told.Declaration (view result)) }
{
    match line {
        Line::Declaration { id: _, value } => value,
        _ => unreachable!(),
    }
}

/// What a line tells of what was asked.
#[tactic(auto, using(crate::proofs::Telling::told_piece, crate::proofs::Telling::told_version, crate::proofs::Telling::told_declaration))]
pub(crate) fn tell<W: World>(asked: Arc<Asked, Global>, place: u64, line: Line) -> ToldLine<W>
    requires fits { Fits (arc_value asked) place (seen line) }
    requires form { IsLineForm (seen line) }
    requires next { IsTrue W.tells → told_by (arc_value asked) place (seen line) ≡ Some (book_answer W.book (arc_value asked) place) }
    requires within { IsTrue W.tells → place ≤ length (replied W.book (arc_value asked)) }
    ensures asked { (shown result).0 ≡ arc_value asked }
    ensures told { told_by (arc_value asked) place (seen line) ≡ Some (shown result).1 }
{
    match &*asked {
        Asked::Call(key) => {
            let piece = piece_of(key, place, line);
            ToldLine::Piece(Told::of(asked, piece))
        }
        Asked::Version { connection, tick } => {
            let version = version_of(connection, *tick, place, line);
            ToldLine::Version(Told::of(asked, version))
        }
        Asked::Declare { connection } => {
            let value = declaration_of(connection, place, line);
            ToldLine::Declaration(Told::of(asked, value))
        }
    }
}
