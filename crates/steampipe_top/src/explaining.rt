// The scans that statements would make, explained.

ghost use Rattle.std.specs.Prelude.{◌≡◌, ◌≢◌, ◌⊎◌, List, ℕ, IfOk, IfErr};
ghost use Rattle.std.specs.List.{list_any};
ghost use Rattle.explain_text.specs.Explained.{AreSound};
ghost use Rattle.sp_model.specs.declared.declaration.Declaration.{Declaration};
ghost use Rattle.sp_model.specs.declared.settings.Settings.{Settings};
ghost use Rattle.sp_outside.specs.Causes.{Rose};
ghost use Rattle.sql_bind.specs.Known.{declaration_of};
ghost use Rattle.steampipe_top.specs.Reading.{IsOverLimit};
ghost use Rattle.steampipe_top.specs.Running.{IsNoted, IsPastFiles, IfAnswered, IfRefused};
ghost use Rattle.steampipe_top.specs.Explaining.{is_refused, is_memory, explained_status, AreBoth, AreKnown, HasExplained, HasExplainedBy, IsBothEnd, IsExplanationWritten, IsRefusedBy};

use crate::reading::{FileEnd, InputEnd, all_settings_of, declaration_of, lines_of};
use crate::status::Status;
use crate::writing::refuse;
use explain_text::{Block, blocks_text, declared_alike, explain_lines};
use sp_outside::{ByteSource, Shelf, Sink, write_all};
use sp_value::{Memory, Text};
use sql_bind::Catalog;
use std::alloc::Global;

fn is_refused(block: &Block) -> bool
    ensures { result ≡ is_refused block.now }
{
    matches!(block, Block::Refused(_))
}

fn is_memory(block: &Block) -> bool
    ensures { result ≡ is_memory block.now }
{
    matches!(block, Block::Memory)
}

fn any_refused(blocks: &[Block]) -> bool
    ensures { result ≡ list_any is_refused blocks.now }
{
    blocks.iter().any(is_refused)
}

fn any_memory(blocks: &[Block]) -> bool
    ensures { result ≡ list_any is_memory blocks.now }
{
    blocks.iter().any(is_memory)
}

fn explained_status(blocks: &[Block]) -> Status
    ensures { result ≡ explained_status blocks.now }
{
    if any_memory(blocks) {
        Status::Memory
    } else if any_refused(blocks) {
        Status::Failed
    } else {
        Status::Done
    }
}

/// Writes blocks. Where memory is wanting for their text, nothing is written.
#[tactic(auto, using(crate::proofs::Answered::explained_so))]
fn write_explanation<O: Sink>(alloc: Global, blocks: &[Block], answers: &mut O) -> Status
    ensures written { IfAnswered result (O.held answers.new ≡ O.held answers.old) (IsExplanationWritten result blocks.now (O.held answers.old) (O.held answers.new)) }
    ensures ends { IfRefused result (λ _. ⊥) }
    ensures later { IsPastFiles result }
    ensures cause { result ≡ Status.WriteFault → Rose (O.faulted answers.old) (O.faulted answers.new) }
{
    let status = explained_status(blocks);
    let Ok(text) = blocks_text(alloc, blocks) else {
        return Status::Memory;
    };
    match write_all(answers, &text) {
        Ok(()) => status,
        Err(_) => Status::WriteFault,
    }
}

/// Reads an input and explains its lines.
fn explain_input<I: ByteSource, O: Sink, N: Sink>(
    alloc: Global,
    catalog: &Catalog,
    input: &mut I,
    answers: &mut O,
    notes: &mut N,
) -> Status
    requires sound { AreSound (declaration_of catalog.now) }
    ensures explained { IfAnswered result ((O.held answers.new ≡ O.held answers.old) × (N.held notes.new ≡ N.held notes.old)) (HasExplained catalog.now result (I.left input.old) (I.left input.new) (O.held answers.old) (O.held answers.new) (N.held notes.old) (N.held notes.new)) }
    ensures read_fault { result ≡ Status.ReadFault → Rose (I.faulted input.old) (I.faulted input.new) }
    ensures input_limit { result ≡ Status.InputLimit → IsOverLimit (I.left input.old) (I.left input.new) }
    ensures write_fault { result ≡ Status.WriteFault → Rose (O.faulted answers.old) (O.faulted answers.new) }
    ensures refused { IfRefused result (λ line. (O.held answers.new ≡ O.held answers.old) × IsNoted (N.faulted notes.old) (N.faulted notes.new) (N.held notes.old) (N.held notes.new) line) }
    ensures later { IsPastFiles result }
{
    let lines = match lines_of(alloc, input) {
        Ok(lines) => lines,
        Err(InputEnd::Fault) => return refuse(notes, b"error: read fault\n", Status::ReadFault),
        Err(InputEnd::Limit) => return refuse(notes, b"error: input limit\n", Status::InputLimit),
        Err(InputEnd::Memory) => return Status::Memory,
    };
    match explain_lines(alloc, lines.as_slice(), catalog) {
        Ok(blocks) => write_explanation(alloc, &blocks, answers),
        Err(Memory) => Status::Memory,
    }
}

/// The settings of a file, in which each connection declares what another file says.
#[tactic(auto, using(crate::proofs::Explanations::by_first, crate::proofs::Explanations::by_second))]
fn catalog_of<F: Shelf>(
    alloc: Global,
    files: &mut F,
    file: &Text,
    second: &Text,
) -> Result<Catalog, FileEnd>
    ensures known { IfOk result (AreKnown (F.file files.old) file.now second.now) }
    ensures sound { IfOk result (λ catalog. AreSound (declaration_of catalog)) }
    ensures end { IfErr result (IsBothEnd (F.file files.old) file.now second.now (F.faulted files.old) (F.faulted files.new)) }
{
    let settings = match all_settings_of(alloc, files, file) {
        Ok(settings) => settings,
        Err(end) => return Err(end),
    };
    let declaration = match declaration_of(alloc, files, second) {
        Ok(declaration) => declaration,
        Err(end) => return Err(end),
    };
    match declared_alike(alloc, &settings, &declaration) {
        Ok(catalog) => Ok(catalog),
        Err(Memory) => Err(FileEnd::Memory),
    }
}

/// The program's `explain`: reads a settings file, then a declaration file, and the whole input, and writes what each of its statements
/// would scan, by that declaration for every connection, or its first refusal. It asks no child and waits for nobody.
///
/// The input has at most 1,048,576 bytes and 10,000 lines. Sessions are passed over. A run that is refused writes one line to the notes and
/// nothing to the answers, every other run nothing to the notes.
pub fn explain<I: ByteSource, F: Shelf, O: Sink, N: Sink>(
    alloc: Global,
    settings: &Text,
    declaration: &Text,
    input: &mut I,
    files: &mut F,
    answers: &mut O,
    notes: &mut N,
) -> Status
    ensures explained { IfAnswered result ((O.held answers.new ≡ O.held answers.old) × (N.held notes.new ≡ N.held notes.old)) (HasExplainedBy (F.file files.old) settings.now declaration.now result (I.left input.old) (I.left input.new) (O.held answers.old) (O.held answers.new) (N.held notes.old) (N.held notes.new)) }
    ensures usage { result ≢ Status.Usage }
    ensures settings { result ≡ Status.Settings → (line : List ℕ) × IsRefusedBy (F.file files.old) settings.now declaration.now (F.faulted files.old) (F.faulted files.new) line × ((O.held answers.new ≡ O.held answers.old) × IsNoted (N.faulted notes.old) (N.faulted notes.new) (N.held notes.old) (N.held notes.new) line) }
    ensures file_fault { result ≡ Status.FileFault → Rose (F.faulted files.old) (F.faulted files.new) }
    ensures read_fault { result ≡ Status.ReadFault → ((s : Settings) × (d : Declaration) × AreBoth (F.file files.old) settings.now declaration.now s d) × Rose (I.faulted input.old) (I.faulted input.new) }
    ensures input_limit { result ≡ Status.InputLimit → ((s : Settings) × (d : Declaration) × AreBoth (F.file files.old) settings.now declaration.now s d) × IsOverLimit (I.left input.old) (I.left input.new) }
    ensures write_fault { result ≡ Status.WriteFault → Rose (O.faulted answers.old) (O.faulted answers.new) }
    ensures refused { IfRefused result (λ line. (O.held answers.new ≡ O.held answers.old) × IsNoted (N.faulted notes.old) (N.faulted notes.new) (N.held notes.old) (N.held notes.new) line) }
{
    match catalog_of(alloc, files, settings, declaration) {
        Ok(catalog) => explain_input(alloc, &catalog, input, answers, notes),
        Err(FileEnd::Refused(line)) => refuse(notes, &line, Status::Settings),
        Err(FileEnd::Fault) => refuse(notes, b"error: file fault\n", Status::FileFault),
        Err(FileEnd::Memory) => Status::Memory,
    }
}
