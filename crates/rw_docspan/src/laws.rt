//! Laws of the readers: the fault that a piece tells is its least, and that of a span or a cospan its first. The calls do
//! nothing: their contracts are the laws.

ghost use Rattle.rw_docspan.specs.PieceEntries.{InstancesTellLeast, MapsTellLeast, SpanTellsFirst, CospanTellsFirst};

/// The fault of an instance is the least of its piece, and there is none where nothing is wrong.
pub fn instances_tell_least()
    ensures { InstancesTellLeast }
{}

/// So it is with a map.
pub fn maps_tell_least()
    ensures { MapsTellLeast }
{}

/// The fault of a span is that of the first of its keys, its three instances and its two maps that has one.
pub fn span_tells_first()
    ensures { SpanTellsFirst }
{}

/// So it is with a cospan.
pub fn cospan_tells_first()
    ensures { CospanTellsFirst }
{}
