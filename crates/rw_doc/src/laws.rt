//! Laws of the readers: the fault that a section tells is its first, and it tells none where nothing is wrong. The calls do
//! nothing: their contracts are the laws.

ghost use Rattle.rw_doc.specs.InstanceEntries.{PartsTellFirst, RowsTellFirst, CellsTellFirst, FailuresTellFirst, InstanceTellsFirst};
ghost use Rattle.rw_doc.specs.SchemaEntries.{ObjectsTellFirst, ArrowsTellFirst, AttributesTellFirst, EquationsTellFirst, SchemaTellsFirst};

/// The fault of the objects is that of the list itself, or else the least of the first object that has one.
pub fn objects_tell_first()
    ensures { ObjectsTellFirst }
{}

/// The fault of the arrows is that of the list itself, or else the least of the first arrow that has one.
pub fn arrows_tell_first()
    ensures { ArrowsTellFirst }
{}

/// The fault of the attributes is that of the list itself, or else the least of the first attribute that has one.
pub fn attributes_tell_first()
    ensures { AttributesTellFirst }
{}

/// The fault of the equations is that of the list itself, or else the least of the first equation that has one.
pub fn equations_tell_first()
    ensures { EquationsTellFirst }
{}

/// The fault of the numbers of parts is that of the list itself, or else the least of the first object that has one.
pub fn parts_tell_first()
    ensures { PartsTellFirst }
{}

/// The fault of the rows is that of the list itself, or else stands in the first row that has one: it is that of the row's
/// list, or else the least of its first image that has one.
pub fn rows_tell_first()
    ensures { RowsTellFirst }
{}

/// So it is with the cells, attribute by attribute.
pub fn cells_tell_first()
    ensures { CellsTellFirst }
{}

/// Where an equation fails, the first that does is told, at the first part at which it does.
pub fn failures_tell_first()
    ensures { FailuresTellFirst }
{}

/// The fault of a schema is that of the first of its own keys, the objects, the arrows, the attributes and the equations that
/// has one.
pub fn schema_tells_first()
    ensures { SchemaTellsFirst }
{}

/// The fault of an instance is that of the first of its own keys, the numbers of parts, the rows, the cells and the equations
/// that has one.
pub fn instance_tells_first()
    ensures { InstanceTellsFirst }
{}
