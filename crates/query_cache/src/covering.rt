// Which requests a scan covers.

ghost use Rattle.std.specs.Prelude.{◌≡◌, ◌&&◌, ◌||◌, filter, not, bytes_eq, IfOk};
ghost use Rattle.std.specs.List.{list_all};
ghost use Rattle.sp_model.specs.Names.{has_name};
ghost use Rattle.sp_model.specs.Covers.{is_get, same_access, same_conditions, reaches, is_among, further, covers_same, covers_more, covers};

use crate::alike::{are_among, is_among};
use sp_model::{Access, Condition, ScanRequest, has_name};

fn is_get(access: Access) -> bool
    ensures { result ≡ is_get access }
{
    match access {
        Access::Get => true,
        Access::List | Access::Parents => false,
    }
}

fn same_access(left: Access, right: Access) -> bool
    ensures { result ≡ same_access left right }
{
    match (left, right) {
        (Access::Get, Access::Get)
        | (Access::List, Access::List)
        | (Access::Parents, Access::Parents) => true,
        _ => false,
    }
}

fn reaches(kept: Option<u64>, wanted: Option<u64>) -> bool
    ensures { result ≡ reaches kept wanted }
{
    match (kept, wanted) {
        (Some(kept), Some(wanted)) => wanted <= kept,
        _ => false,
    }
}

fn same_conditions(left: &[Condition], right: &[Condition]) -> bool
    ensures { result ≡ same_conditions left.now right.now }
{
    are_among(right, left) && are_among(left, right)
}

fn covers_same(kept: &ScanRequest, complete: bool, request: &ScanRequest) -> bool
    ensures { result ≡ covers_same kept.now complete request.now }
{
    same_conditions(kept.conditions.as_slice(), request.conditions.as_slice())
        && (complete || reaches(kept.limit, request.limit))
}

/// Whether a request has a condition, on a column that isn't one of its subset columns, that the kept scan doesn't have.
fn only_filters(kept: &ScanRequest, request: &ScanRequest) -> bool
    ensures { result ≡ list_all (λ condition. has_name request.now.subset condition.column) (further kept.now request.now) }
{
    for condition in request.conditions.as_slice() {
        if !has_name(request.subset.as_slice(), &condition.column)
            && !is_among(kept.conditions.as_slice(), condition)
        {
            return false;
        }
    }
    true
}

fn covers_more(kept: &ScanRequest, complete: bool, request: &ScanRequest) -> bool
    ensures { result ≡ covers_more kept.now complete request.now }
{
    complete
        && !is_get(kept.access)
        && are_among(request.conditions.as_slice(), kept.conditions.as_slice())
        && only_filters(kept, request)
}

fn same_place(kept: &ScanRequest, request: &ScanRequest) -> bool
    ensures { result ≡ (bytes_eq kept.now.connection request.now.connection && bytes_eq kept.now.table request.now.table && same_access kept.now.access request.now.access) }
{
    kept.connection == request.connection
        && kept.table == request.table
        && same_access(kept.access, request.access)
}

fn covers_conditions(kept: &ScanRequest, complete: bool, request: &ScanRequest) -> bool
    ensures { result ≡ (covers_same kept.now complete request.now || covers_more kept.now complete request.now) }
{
    covers_same(kept, complete, request) || covers_more(kept, complete, request)
}

/// Whether a scan of a request, which came to the ending of its calls or not, covers another request.
#[tactic(auto, unfolding(sp_model::specs::Covers::covers))]
pub(crate) fn covers(kept: &ScanRequest, complete: bool, request: &ScanRequest) -> bool
    ensures { result ≡ covers kept.now complete request.now }
{
    same_place(kept, request)
        && are_among(kept.columns.as_slice(), request.columns.as_slice())
        && covers_conditions(kept, complete, request)
}
