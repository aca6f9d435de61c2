//! Laws of project files with names, and of lists.

ghost use Rattle.plan_table.specs.Acceptance.{KeepsLists};
ghost use Rattle.plan_table.specs.Kinds.{KindsAreSingle, ProjectsAreNoLists, ShopsAreNoLists};
ghost use Rattle.plan_table.specs.NameLines.{NameLinesChangeNothing};
ghost use Rattle.plan_table.specs.Settlement.{LimitedColumnsStay};

/// A line of an id or a name in an information section changes nothing of the project that a text says.
pub fn names_change_nothing()
    ensures { NameLinesChangeNothing }
{}

/// If each column with an unknown header has a capacity, then each column is what its header says.
pub fn limited_columns_stay()
    ensures { LimitedColumnsStay }
{}

/// If the columns are what their headers alone say, and then the rows say a table, then the list says
/// this table.
pub fn accepted_lists_stay()
    ensures { KeepsLists }
{}

/// A text that is read as a project or as a job shop is no list. A list is of one kind.
pub fn plan_files_are_no_lists()
    ensures projects { ProjectsAreNoLists }
    ensures shops { ShopsAreNoLists }
    ensures single { KindsAreSingle }
{}
