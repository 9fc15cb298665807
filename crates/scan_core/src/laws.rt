ghost use Rattle.scan_core.specs.Laws.{ScanGoesOn, PieceIsTakenIn, ParentsPieceIsTakenIn, StillScanIsOpen};

/// A scan that goes on by itself goes on agreeing with whatever it agreed with, and lists nothing.
pub fn scan_goes_on()
    ensures { ScanGoesOn }
{}

/// A piece of what is answered keeps a scan in agreement with it.
pub fn piece_is_taken_in()
    ensures { PieceIsTakenIn }
{}

/// A piece of what is answered to the parents call, too.
pub fn parents_piece_is_taken_in()
    ensures { ParentsPieceIsTakenIn }
{}

/// A scan that goes on by no rule waits for its first undecided place.
pub fn still_scan_is_open()
    ensures { StillScanIsOpen }
{}
