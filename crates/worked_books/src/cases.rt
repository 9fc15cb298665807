//! A book, what is asked of it, what the plain program makes of that, and scans beside it.

ghost use Rattle.std.specs.Prelude.{◌≡◌, ◌≤◌, IfSome};
ghost use Rattle.std.specs.Arc.{arc_value};
ghost use Rattle.sp_model.specs.Sayable.{IsSayableVersion};
ghost use Rattle.decl_words.specs.Sound.{IsSound};

use crate::books::script;
use crate::comparing::same_end;
use crate::feeding::{Fed, Feeding};
use crate::random::Random;
use crate::requests::request;
use crate::scans::{Way, begin, row_count, way_of, way_of_walk};
use crate::tables::table;
use plain_program::{Script, scan_value, scan_walk};
use sp_model::{Access, ScanRequest, ScanValue, TableDecl, Version};
use sp_value::Text;
use std::alloc::Global;
use std::sync::Arc;

/// A book, a request, its value, and in which way that comes.
#[derive(Drop)]
pub struct Case {
    table: Arc<TableDecl, Global>,
    script: Script,
    request: ScanRequest,
    is_bad: bool,
    value: ScanValue,
    way: Option<Way>,
}

/// The version, or why there is none.
fn version(alloc: Global, is_bad: bool) -> Option<Version>
    ensures { IfSome result IsSayableVersion }
{
    if is_bad {
        Some(Version::Bad(Text::from_str(alloc, "closed").ok()?))
    } else {
        Some(Version::Is(7))
    }
}

/// How the items of a table are asked for, in one half of the cases under parents.
fn access(random: &mut Random) -> Access {
    match random.below(6) {
        0 => Access::Get,
        1 | 2 => Access::List,
        _ => Access::Parents,
    }
}

/// The case of a table.
fn case_of(alloc: Global, random: &mut Random, access: Access, table: TableDecl) -> Option<Case>
    requires { IsSound table }
    ensures { IfSome result (λ c. IsSound (arc_value c.table)) }
{
    let script = script(alloc, random, access)?;
    let request = request(alloc, random, access, &table)?;
    let is_bad = random.one_in(40);
    let value = scan_value(alloc, &script, &table, &request, &version(alloc, is_bad)?).ok()??;
    let way = if is_bad {
        None
    } else {
        way_of_walk(&scan_walk(alloc, &script, &table, &request).ok()?)
    };
    Some(Case {
        table: Arc::new(alloc, table).ok()?,
        script,
        request,
        is_bad,
        value,
        way,
    })
}

/// The case of a seed.
pub fn made(alloc: Global, seed: u64) -> Option<Case>
    ensures { IfSome result (λ c. IsSound (arc_value c.table)) }
{
    let mut random = Random::from_seed(seed);
    let access = access(&mut random);
    let table = table(alloc, &mut random, access)?;
    case_of(alloc, &mut random, access, table)
}

/// What a scan of a case came to.
#[derive(Clone, Copy)]
pub struct Came {
    pub rows: usize,
    /// In which way it ended in rows; there is none where it failed.
    pub way: Option<Way>,
    pub calls: u64,
    pub late: u64,
    /// How it differs from the plain program.
    pub fault: Option<&'static str>,
}

/// What a scan that was fed came to, beside the plain program.
fn compared(case: &Case, fed: Fed) -> Came {
    let mut fault = fed.fault;
    if !same_end(&fed.scan, &case.value) {
        fault = Some("another end");
    }
    let rows = row_count(&fed.scan);
    let way = way_of(fed.scan);
    if way != case.way {
        fault = Some("another way to its end");
    }
    Came {
        rows,
        way,
        calls: fed.calls,
        late: fed.late,
        fault,
    }
}

/// Runs the scan of a case.
pub fn outcome(alloc: Global, case: &Case, window: u32, seed: u64) -> Option<Came>
    requires sound { IsSound (arc_value case.now.table) }
    requires window { (1 ≤ window) × (window ≤ 4096) }
{
    let version = version(alloc, case.is_bad)?;
    let scan = begin(alloc, &case.table, &case.request, version, window)?;
    let random = Random::from_seed(seed);
    let fed = Feeding::new(alloc, random, &case.script, &case.table, scan).run()?;
    Some(compared(case, fed))
}
