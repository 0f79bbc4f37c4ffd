//! Laws over the constants alone.
ghost use Rattle.std.specs.Prelude.{◌≡◌, ◌^◌};
ghost use Rattle.station_parts.specs.declared.make.TheConstants.{MAX_ENTRIES, MAX_NOTED, MAX_PORTS};
ghost use Rattle.station_parts.specs.declared.port.TheConstants.{ASK_PLACES, TELLING_PLACES};

/// A station's limits as numbers.
pub fn limits_of_a_station()
    ensures ports { MAX_PORTS ≡ 16 }
    ensures entries { MAX_ENTRIES ≡ 1048576 }
    ensures noted { MAX_NOTED ≡ 2 ^ 56 }
    ensures asks { ASK_PLACES ≡ 16 }
    ensures tellings { TELLING_PLACES ≡ 64 }
{}
