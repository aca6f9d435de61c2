//! `plan new`: lists to start from.

ghost use Rattle.std.specs.Prelude.{◌≡◌, ◌⊎◌, ◌+◌, ◌≤◌, IfErr, IsErrOf, OnOk};
ghost use Rattle.plan_io.specs.Devices.{most_calls};
ghost use Rattle.plan_errors.specs.Output.{HasSinkFailed, Writes};
ghost use Rattle.plan_cli.specs.TemplateRun as spec;

use plan_errors::{CliFault, write_text};
use plan_io::Sink;
use plan_table::{PROJECT_TEMPLATE, SHOP_TEMPLATE};

/// A list to start from.
#[derive(Clone, Copy, Debug, PartialEq, Eq)]
pub enum Template {
    /// A project: activities with predecessors, a crew and a digger.
    Project,
    /// A job shop: orders on machines.
    Shop,
}

impl Template {
    /// Returns its text, a CSV table.
    fn text(self) -> &'static str
        ensures { result.now ≡ spec.template_text self }
    {
        match self {
            Template::Project => PROJECT_TEMPLATE,
            Template::Shop => SHOP_TEMPLATE,
        }
    }
}

/// Writes a template. The only error is that of the output.
pub fn template_run<W: Sink>(template: Template, writer: &mut W) -> Result<(), CliFault>
    ensures writes { W.calls writer.new ≤ W.calls writer.old + most_calls }
    // The whole text; a part of it if the output fails.
    ensures text { Writes (λ text. text ≡ spec.template_text template) (λ _. ⊥)
        (W.taken writer.old) (W.taken writer.new) result }
    ensures only { IfErr result (λ e. e ≡ CliFault.Output) }
    ensures fine { OnOk result (W.faults writer.new ≡ W.faults writer.old) }
    ensures output { IsErrOf result CliFault.Output → HasSinkFailed W.Sink writer.old writer.new }
{
    write_text(writer, template.text().as_bytes())
}
