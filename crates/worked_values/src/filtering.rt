ghost use Rattle.worked_values.specs.Filtering.{FilteringBookKeepsThePromise, HeedlessBookBreaksIt, FilteringBookCanBeSaid, KeptScanIsSuchAScan, KeptRowsAreTheScansOwn, ScanDropsWhatIsNotTrue};

/// A small book whose subset keys only filter, and which lines can say; and one whose subset keys do not.
pub fn small_books()
    ensures filtering_book_keeps_the_promise { FilteringBookKeepsThePromise }
    ensures heedless_book_breaks_it { HeedlessBookBreaksIt }
    ensures filtering_book_can_be_said { FilteringBookCanBeSaid }
{}

/// A kept scan of the small book, and a narrower one that it serves: all that the law on covered scans asks, and what it says.
pub fn covered_scan()
    ensures kept_scan_is_such_a_scan { KeptScanIsSuchAScan }
    ensures kept_rows_are_the_scans_own { KeptRowsAreTheScansOwn }
    ensures scan_drops_what_is_not_true { ScanDropsWhatIsNotTrue }
{}
