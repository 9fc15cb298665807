ghost use Rattle.std.specs.Prelude.{◌≡◌, ◌≤◌, [], true, length, None, IfOk};
ghost use Rattle.std.specs.Arc.{arc_value};
ghost use Rattle.decl_words.specs.Sound.{IsSound};
ghost use Rattle.hydrate_graph.specs.Graphs.{rules_in};
ghost use Rattle.hydrate_graph.specs.Plans.{AreApart};
ghost use Rattle.model_laws.specs.LawfulScans.{is_lawful_scan};
ghost use Rattle.scan_laws.specs.Steps.{begin_of};
ghost use Rattle.scan_core.specs.Courses.{state_of, table_of, IsScope, IsCourse};
ghost use Rattle.sp_model.specs.RowOf.{columns_named};
ghost use Rattle.one_scan.specs.Forms.{IsPlanForm};
ghost use Rattle.one_scan.specs.Scans.{end_of, number_of, IsBegun, BeginsAt};

use hydrate_graph::RowPlan;
use scan_core::{Course, CourseEnd, ScanScope};
use sp_model::{Cause, TableDecl, Version};
use sp_value::{Memory, Texts, TryCopy};
use sp_world::World;
use std::alloc::Global;
use std::sync::Arc;

/// The number of a version, 0 for a bad one.
pub(crate) fn number_of(version: &Version) -> u64
    ensures { result ≡ number_of version.now }
{
    match version {
        Version::Is(number) => *number,
        Version::Bad(_) => 0,
    }
}

/// The plan of the rows of a scan of these columns.
fn plan_of(alloc: Global, table: &TableDecl, columns: &Texts) -> Result<RowPlan, Memory>
    requires { IsSound table.now }
    ensures functions { IfOk result (λ p. p.functions ≡ table.now.functions) }
    ensures columns { IfOk result (λ p. p.columns ≡ columns_named columns.now table.now.columns) }
    ensures rules { IfOk result (λ p. p.rules ≡ rules_in table.now table.now.functions) }
    ensures count { IfOk result (λ p. length p.slots ≡ length p.functions) }
    ensures apart { IfOk result (λ p. AreApart p.slots) }
{
    let plan = RowPlan::of(alloc, table, columns)?;
    let _slot = plan.slot(0);
    Ok(plan)
}

/// A scan of which nothing is listed and nothing came.
fn course_of<W: World>(alloc: Global, scope: &ScanScope) -> Result<Course<W>, Memory>
    requires sources { IsScope scope.now }
    requires sound { IsSound (table_of scope.now) }
    requires lawful { is_lawful_scan (table_of scope.now) scope.now.request ≡ true }
    requires window { scope.now.window ≤ 4096 }
    ensures begun { IfOk result (IsBegun scope.now) }
    ensures end { IfOk result (λ c. c.end ≡ None) }
{
    let plan = plan_of(alloc, &scope.table, &scope.request.columns)?;
    let plan = Arc::new(alloc, plan)?;
    Course::begin(alloc, scope, plan)
}

/// The end of a scan at a version that is bad.
fn end_of(alloc: Global, version: &Version) -> Result<Option<CourseEnd>, Memory>
    ensures { IfOk result (λ end. end ≡ end_of version.now) }
{
    match version {
        Version::Is(_) => Ok(None),
        Version::Bad(text) => Ok(Some(CourseEnd::Failed {
            row: 0,
            column: None,
            cause: Cause::BadVersion(text.copy(alloc)?),
        })),
    }
}

/// The scan as it begins at a version: a bad one ends it.
pub(crate) fn begun<W: World>(
    alloc: Global,
    scope: &ScanScope,
    version: &Version,
) -> Result<Course<W>, Memory>
    requires sources { IsScope scope.now }
    requires sound { IsSound (table_of scope.now) }
    requires lawful { is_lawful_scan (table_of scope.now) scope.now.request ≡ true }
    requires window { scope.now.window ≤ 4096 }
    ensures { IfOk result (BeginsAt scope.now version.now) }
{
    let end = end_of(alloc, version)?;
    let mut course = course_of(alloc, scope)?;
    course.end = end;
    Ok(course)
}
