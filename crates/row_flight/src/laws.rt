ghost use Rattle.row_flight.specs.Laws.{FlightGoesOn};

/// Where the rows of a scan in progress go on, the scan goes on.
pub fn flight_goes_on()
    ensures { FlightGoesOn }
{}
