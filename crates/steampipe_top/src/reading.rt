// The files and the lines of a run.

ghost use Rattle.std.specs.Prelude.{◌≡◌, ◌≤◌, List, ℕ, All, Ok, Some, IfOk, IfErr, codes};
ghost use Rattle.serde_json.specs.View.{view};
ghost use Rattle.decl_words.specs.Sound.{IsSound};
ghost use Rattle.input_lines.specs.Lines.{lines_to_answer};
ghost use Rattle.settings_text.specs.Reading.{read_settings, read_all_settings};
ghost use Rattle.statement_run.specs.Settings.{CanRun};
ghost use Rattle.sp_outside.specs.Files.{IsFile};
ghost use Rattle.sp_world.specs.LineJson.{json_of};
ghost use Rattle.steampipe_top.specs.Reading.{AreSettings, AreBadSettings, IsDeclaration, IsBadDeclaration, ReadsAs, IsFileEnd, IsUnreadEnd, IsTextEnd, IsInput, IsInputEnd};

use crate::refusing::{refused, refused_declaration, refused_settings};
use decl_core::read_declaration;
use input_lines::{Line, LinesFault, read_lines};
use serde_json::Value;
use settings_text::{read_all_settings, read_settings};
use sp_model::{Declaration, Settings};
use sp_outside::{ByteSource, ReadEnd, Shelf, ShelfEnd, read_to_limit};
use sp_value::Text;
use sqlite_items::Items;
use std::alloc::Global;

/// How many bytes an input may have.
const INPUT_LIMIT: usize = 1_048_576;

/// Why a file gives nothing: it is refused, with the line that says so; or the shelf failed; or memory was wanting.
#[derive(Drop)]
pub(crate) enum FileEnd {
    Refused(Vec<u8>),
    Fault,
    Memory,
}

/// Why there are no lines.
#[derive(Clone, Copy)]
pub(crate) enum InputEnd {
    Fault,
    Limit,
    Memory,
}

/// The text of a file. `what` it should be.
#[tactic(auto, using(crate::proofs::Endings::unread))]
fn text_of<F: Shelf>(
    alloc: Global,
    files: &mut F,
    file: &Text,
    what: &str,
) -> Result<Vec<u8>, FileEnd>
    ensures ok { IfOk result (λ text. IsFile (F.file files.old file.now) text.items) }
    ensures end { IfErr result (IsUnreadEnd what.now (F.file files.old file.now) (F.faulted files.old) (F.faulted files.new)) }
    ensures later { F.faulted files.old ≤ F.faulted files.new }
    ensures files { F.file files.new ≡ F.file files.old }
{
    match files.read(alloc, file) {
        Ok(text) => Ok(text),
        Err(ShelfEnd::Absent) => Err(refused(alloc, what, "no file")),
        Err(ShelfEnd::TooLong) => Err(refused(alloc, what, "too long")),
        Err(ShelfEnd::Failed) => Err(FileEnd::Fault),
        Err(ShelfEnd::Memory) => Err(FileEnd::Memory),
    }
}

/// The settings that a file has, where they can be served.
#[tactic(auto, using(crate::proofs::Endings::by_settings, crate::proofs::Endings::by_unread))]
pub(crate) fn settings_of<F: Shelf>(
    alloc: Global,
    files: &mut F,
    file: &Text,
) -> Result<Settings, FileEnd>
    ensures ok { IfOk result (AreSettings read_settings (F.file files.old file.now)) }
    ensures can_run { IfOk result CanRun }
    ensures end { IfErr result (IsFileEnd (AreBadSettings read_settings) (codes "settings") (F.file files.old file.now) (F.faulted files.old) (F.faulted files.new)) }
{
    let text = match text_of(alloc, files, file, "settings") {
        Ok(text) => text,
        Err(end) => return Err(end),
    };
    match read_settings(alloc, &text) {
        Ok(settings) => Ok(settings),
        Err(fault) => Err(refused_settings(alloc, fault)),
    }
}

/// The settings that a file has, also those that nothing serves yet.
#[tactic(auto, using(crate::proofs::Endings::by_settings, crate::proofs::Endings::by_unread))]
pub(crate) fn all_settings_of<F: Shelf>(
    alloc: Global,
    files: &mut F,
    file: &Text,
) -> Result<Settings, FileEnd>
    ensures ok { IfOk result (AreSettings read_all_settings (F.file files.old file.now)) }
    ensures end { IfErr result (IsFileEnd (AreBadSettings read_all_settings) (codes "settings") (F.file files.old file.now) (F.faulted files.old) (F.faulted files.new)) }
    ensures later { F.faulted files.old ≤ F.faulted files.new }
    ensures files { F.file files.new ≡ F.file files.old }
{
    let text = match text_of(alloc, files, file, "settings") {
        Ok(text) => text,
        Err(end) => return Err(end),
    };
    match read_all_settings(alloc, &text) {
        Ok(settings) => Ok(settings),
        Err(fault) => Err(refused_settings(alloc, fault)),
    }
}

/// The JSON that bytes are.
#[tactic(auto, using(crate::proofs::Endings::by_json))]
fn json_from(alloc: Global, bytes: &[u8]) -> Result<Value, FileEnd>
    ensures ok { IfOk result (λ value. json_of bytes.now ≡ Some (view value)) }
    ensures end { IfErr result (IsTextEnd (IsBadDeclaration bytes.now) (codes "declaration")) }
{
    let Ok(text) = str::from_utf8(bytes) else {
        return Err(refused(alloc, "declaration", "json"));
    };
    match Value::from_str(alloc, text) {
        Ok(value) => Ok(value),
        Err(error) => if error.is_memory() {
            Err(FileEnd::Memory)
        } else {
            Err(refused(alloc, "declaration", "json"))
        },
    }
}

/// The declaration that bytes are.
#[tactic(auto, using(crate::proofs::Endings::by_declaration))]
fn declaration_from(alloc: Global, bytes: &[u8]) -> Result<Declaration, FileEnd>
    ensures ok { IfOk result (λ d. ReadsAs bytes.now (Ok d)) }
    ensures sound { IfOk result (λ d. All IsSound d.tables) }
    ensures end { IfErr result (IsTextEnd (IsBadDeclaration bytes.now) (codes "declaration")) }
{
    let value = match json_from(alloc, bytes) {
        Ok(value) => value,
        Err(end) => return Err(end),
    };
    match read_declaration(alloc, &value) {
        Ok(declaration) => Ok(declaration),
        Err(fault) => Err(refused_declaration(alloc, fault)),
    }
}

/// The declaration that a file has.
#[tactic(auto, using(crate::proofs::Endings::by_text, crate::proofs::Endings::by_unread))]
pub(crate) fn declaration_of<F: Shelf>(
    alloc: Global,
    files: &mut F,
    file: &Text,
) -> Result<Declaration, FileEnd>
    ensures ok { IfOk result (IsDeclaration (F.file files.old file.now)) }
    ensures sound { IfOk result (λ d. All IsSound d.tables) }
    ensures end { IfErr result (IsFileEnd IsBadDeclaration (codes "declaration") (F.file files.old file.now) (F.faulted files.old) (F.faulted files.new)) }
{
    match text_of(alloc, files, file, "declaration") {
        Ok(text) => declaration_from(alloc, &text),
        Err(end) => Err(end),
    }
}

/// The lines of the whole input.
pub(crate) fn lines_of<I: ByteSource>(alloc: Global, input: &mut I) -> Result<Items<Line>, InputEnd>
    ensures ok { IfOk result (λ lines. (text : List ℕ) × IsInput (I.left input.old) (I.left input.new) text × (lines ≡ lines_to_answer text)) }
    ensures end { IfErr result (IsInputEnd (I.left input.old) (I.left input.new) (I.faulted input.old) (I.faulted input.new)) }
{
    match read_to_limit(alloc, input, INPUT_LIMIT) {
        Ok(text) => match read_lines(alloc, &text) {
            Ok(lines) => Ok(lines),
            Err(LinesFault::TooMany) => Err(InputEnd::Limit),
            Err(LinesFault::Memory) => Err(InputEnd::Memory),
        },
        Err(ReadEnd::Failed) => Err(InputEnd::Fault),
        Err(ReadEnd::TooLong) => Err(InputEnd::Limit),
        Err(ReadEnd::Memory) => Err(InputEnd::Memory),
    }
}
