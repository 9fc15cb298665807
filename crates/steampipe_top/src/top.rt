ghost use Rattle.std.specs.Prelude.{◌≡◌, ◌≢◌, ◌⊎◌, List, ℕ, length, MatchOption};
ghost use Rattle.sp_outside.specs.Causes.{Rose};
ghost use Rattle.command_words.specs.Words.{words_of};
ghost use Rattle.run_lines.specs.Blocks.{CameBack, with_child};
ghost use Rattle.statement_run.specs.Settings.{CanRun};
ghost use Rattle.steampipe_top.specs.Reading.{IsOverLimit};
ghost use Rattle.steampipe_top.specs.Running.{AreNone, AreReturned, IsPastFiles, HasAnswered, HasRun, IsNoted, IfAnswered, IfRefused};
ghost use Rattle.steampipe_top.specs.Loading.{HasLoaded, IsToLoad};
ghost use Rattle.steampipe_top.specs.Explaining.{HasExplainedBy, IsReady, IsRefusedBy, IsToExplain};

use crate::explaining::explain;
use crate::loading::load;
use crate::reading::{FileEnd, InputEnd, lines_of, settings_of};
use crate::status::Status;
use crate::task::{Task, read_task};
use crate::writing::{refuse, write_blocks};
use answer_text::Form;
use run_lines::run_lines;
use sp_model::Settings;
use sp_outside::{ByteSource, Clock, Nursery, Shelf, Sink};
use sp_value::{Memory, Text};
use sp_world::World;
use std::alloc::Global;
use std::sync::Wait;

const USAGE: &[u8] =
    b"usage: steampipe [--output line|csv|json|table] query SETTINGS, explain SETTINGS DECLARATION, load NUMBER\n";

/// Reads and answers an input by settings, and writes the answers and then the notes.
fn run<R: Wait, W: World, I: ByteSource, O: Sink, N: Sink, M: Nursery<W>, K: Clock>(
    rt: &R,
    alloc: Global,
    settings: &Settings,
    form: Form,
    input: &mut I,
    answers: &mut O,
    notes: &mut N,
    nursery: &mut M,
    clock: &K,
) -> Status
    requires all_back { length (M.back nursery.old) ≡ M.made nursery.old }
    requires can_run { CanRun settings.now }
    ensures answered { IfAnswered result ((O.held answers.new ≡ O.held answers.old) × (N.held notes.new ≡ N.held notes.old)) (HasAnswered M.Kid.Child W.World settings.now form result (record { left = I.left input.old; held = O.held answers.old; notes = N.held notes.old; back = M.back nursery.old }) (record { left = I.left input.new; held = O.held answers.new; notes = N.held notes.new; back = M.back nursery.new })) }
    ensures read_fault { result ≡ Status.ReadFault → Rose (I.faulted input.old) (I.faulted input.new) }
    ensures input_limit { result ≡ Status.InputLimit → IsOverLimit (I.left input.old) (I.left input.new) }
    ensures write_fault { result ≡ Status.WriteFault → Rose (O.faulted answers.old) (O.faulted answers.new) ⊎ Rose (N.faulted notes.old) (N.faulted notes.new) }
    ensures refused { IfRefused result (λ line. (O.held answers.new ≡ O.held answers.old) × IsNoted (N.faulted notes.old) (N.faulted notes.new) (N.held notes.old) (N.held notes.new) line) }
    ensures later { IsPastFiles result }
    ensures children { (children : List M.Kid) × CameBack M.Kid.Child W.World (with_child settings.now.connections) (M.back nursery.old) (M.back nursery.new) children }
    ensures back { length (M.back nursery.new) ≡ M.made nursery.new }
{
    let lines = match lines_of(alloc, input) {
        Ok(lines) => lines,
        Err(InputEnd::Fault) => return refuse(notes, b"error: read fault\n", Status::ReadFault),
        Err(InputEnd::Limit) => return refuse(notes, b"error: input limit\n", Status::InputLimit),
        Err(InputEnd::Memory) => return Status::Memory,
    };
    match run_lines::<R, W, M, K>(rt, alloc, settings, lines.as_slice(), nursery, clock) {
        Ok(ran) => write_blocks(alloc, form, ran.blocks, answers, notes),
        Err(Memory) => Status::Memory,
    }
}

/// The program: reads the words, the settings file and the whole input, answers its lines over a child of each plain connection, and writes
/// the answers and then the notes.
///
/// The words are those of `command_words`, all others are `Usage`. `explain` reads a declaration file too, makes no child, and writes what
/// statements would scan. `load` reads nothing: it answers a statement of its own, by settings of its own, and writes how many rows and
/// calls there were and a sum. The input has at most 1,048,576 bytes and 10,000 lines.
/// A run that is refused writes one line to the notes and nothing to the answers.
pub fn steampipe<
    R: Wait,
    W: World,
    I: ByteSource,
    F: Shelf,
    O: Sink,
    N: Sink,
    M: Nursery<W>,
    K: Clock + Sync,
>(
    rt: &R,
    alloc: Global,
    words: &[Text],
    input: &mut I,
    files: &mut F,
    answers: &mut O,
    notes: &mut N,
    nursery: &mut M,
    clock: &K,
) -> Status
    requires all_back { length (M.back nursery.old) ≡ M.made nursery.old }
    ensures answered { IfAnswered result ((O.held answers.new ≡ O.held answers.old) × (N.held notes.new ≡ N.held notes.old)) (HasRun M.Kid.Child W.World words.now (F.file files.old) result (record { left = I.left input.old; held = O.held answers.old; notes = N.held notes.old; back = M.back nursery.old }) (record { left = I.left input.new; held = O.held answers.new; notes = N.held notes.new; back = M.back nursery.new }) ⊎ IsToExplain words.now (λ file second. HasExplainedBy (F.file files.old) file second result (I.left input.old) (I.left input.new) (O.held answers.old) (O.held answers.new) (N.held notes.old) (N.held notes.new)) ⊎ IsToLoad words.now (λ count form. HasLoaded M.Kid.Child W.World count form result (O.held answers.old) (O.held answers.new) (M.back nursery.old) (M.back nursery.new) × (N.held notes.new ≡ N.held notes.old) × (I.left input.new ≡ I.left input.old))) }
    ensures usage { MatchOption (words_of words.now) ((result ≡ Status.Usage) ⊎ (result ≡ Status.Memory)) (λ _. result ≢ Status.Usage) }
    ensures settings { result ≡ Status.Settings → AreNone words.now (F.file files.old) (F.faulted files.old) (F.faulted files.new) (λ line. (O.held answers.new ≡ O.held answers.old) × IsNoted (N.faulted notes.old) (N.faulted notes.new) (N.held notes.old) (N.held notes.new) line) ⊎ IsToExplain words.now (λ file second. (line : List ℕ) × IsRefusedBy (F.file files.old) file second (F.faulted files.old) (F.faulted files.new) line × ((O.held answers.new ≡ O.held answers.old) × IsNoted (N.faulted notes.old) (N.faulted notes.new) (N.held notes.old) (N.held notes.new) line)) }
    ensures file_fault { result ≡ Status.FileFault → Rose (F.faulted files.old) (F.faulted files.new) }
    ensures read_fault { result ≡ Status.ReadFault → IsReady words.now (F.file files.old) × Rose (I.faulted input.old) (I.faulted input.new) }
    ensures input_limit { result ≡ Status.InputLimit → IsReady words.now (F.file files.old) × IsOverLimit (I.left input.old) (I.left input.new) }
    ensures write_fault { result ≡ Status.WriteFault → Rose (O.faulted answers.old) (O.faulted answers.new) ⊎ Rose (N.faulted notes.old) (N.faulted notes.new) }
    ensures refused { IfRefused result (λ line. (O.held answers.new ≡ O.held answers.old) × IsNoted (N.faulted notes.old) (N.faulted notes.new) (N.held notes.old) (N.held notes.new) line) }
    ensures children { AreReturned M.Kid.Child W.World words.now (F.file files.old) (M.back nursery.old) (M.back nursery.new) }
    ensures back { length (M.back nursery.new) ≡ M.made nursery.new }
{
    match read_task(alloc, words) {
        Task::Query { settings, form } => match settings_of(alloc, files, &settings) {
            Ok(settings) => run::<R, W, I, O, N, M, K>(
                rt, alloc, &settings, form, input, answers, notes, nursery, clock,
            ),
            Err(FileEnd::Refused(line)) => refuse(notes, &line, Status::Settings),
            Err(FileEnd::Fault) => refuse(notes, b"error: file fault\n", Status::FileFault),
            Err(FileEnd::Memory) => Status::Memory,
        },
        Task::Explain {
            settings,
            declaration,
        } => explain(alloc, &settings, &declaration, input, files, answers, notes),
        Task::Load { count, form } => {
            load::<R, W, O, M, K>(rt, alloc, form, count, answers, nursery, clock)
        }
        Task::Nothing => refuse(notes, USAGE, Status::Usage),
        Task::Memory => Status::Memory,
    }
}
