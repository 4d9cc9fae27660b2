//! Laws over definitions alone.

ghost use Rattle.stations.specs.Laws.{ComparingTellsDifferences};

/// At the closing point of a card cycle a position of comparing emits exactly where at some row one of its two entries was
/// impulsed and the other was not.
pub fn comparing_tells_differences()
    ensures { ComparingTellsDifferences }
{}
