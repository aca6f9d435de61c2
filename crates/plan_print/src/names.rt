//! The names of resources and orders.

ghost use Rattle.std.specs.Prelude.{◌≡◌, IfOk, map};
ghost use Rattle.plan_table.specs.Names.{name_of};
ghost use Rattle.plan_print.specs.Sheets as spec;

use plan_documents::Subject;
use plan_table::{NameLine, order_names, resource_names};
use std::alloc::{AllocError, Global};

/// Returns the names of the resources of a project, or of the orders of a job shop.
pub(crate) fn legend_names<'a>(
    alloc: Global,
    subject: Subject<'_>,
    file: &'a [u8],
) -> Result<Vec<NameLine<'a>>, AllocError>
    ensures { IfOk result (λ names.
        map name_of names.items ≡ spec.legend_names subject.entry file.now) }
{
    match subject {
        Subject::Project(_) => resource_names(alloc, file),
        Subject::Shop(instance) => order_names(alloc, file, instance.as_bytes()),
    }
}
