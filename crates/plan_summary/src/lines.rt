//! The rows of an office as lines of text.

ghost use Rattle.std.specs.Prelude.{◌≡◌, IfOk, string_bytes};
ghost use Rattle.plan_rows.specs.World.{Text};
ghost use Rattle.plan_rows.specs.Books.{published_in};
ghost use Rattle.plan_rows.specs.Tables.{desk_kept, bind_kept, lag_kept};
ghost use Rattle.plan_summary.specs.RowTexts as spec;
ghost use Rattle.plan_summary.specs.Digests.{plan_of, plan_front};

use plan_rows::{BindRecord, CodeRow, DeskRecord, LagRecord, PlanKey, PlanRow};
use std::alloc::{AllocError, Global};

/// A row that has a line.
pub(crate) trait Line {
    /// The line of the row.
    ghost written: { Self → Text };

    /// Formats its line.
    fn line(&self, alloc: Global) -> Result<String, AllocError>
        ensures { IfOk result (λ line. string_bytes line ≡ written self.now) };
}

impl Line for CodeRow {
    ghost written = { λ row. spec.code_line (published_in row) };

    fn line(&self, alloc: Global) -> Result<String, AllocError> {
        let (code, kind) = (self.code.as_str(), self.kind.word());
        let capacity = self.capacity;
        format!(in alloc; "published {code} {kind} {capacity}\n")
    }
}

impl Line for DeskRecord {
    ghost written = { λ row. spec.desk_line (desk_kept row) };

    fn line(&self, alloc: Global) -> Result<String, AllocError> {
        let hex = hex::encode(alloc, self.digest.as_slice())?;
        let (desk, digest, next) = (self.desk.as_str(), hex.as_str(), self.next);
        format!(in alloc; "desk {desk} {digest} {next}\n")
    }
}

impl Line for BindRecord {
    ghost written = { λ row. spec.bind_line (bind_kept row) };

    fn line(&self, alloc: Global) -> Result<String, AllocError> {
        let (desk, n) = (self.desk.as_str(), self.n);
        let (place, code) = (self.place, self.code.as_str());
        format!(in alloc; "bind {desk} {n} {place} {code}\n")
    }
}

impl Line for LagRecord {
    ghost written = { λ row. spec.lag_line (lag_kept row) };

    fn line(&self, alloc: Global) -> Result<String, AllocError> {
        let (desk, n) = (self.desk.as_str(), self.n);
        let (from, to, lag) = (self.from, self.to, self.lag);
        format!(in alloc; "lag {desk} {n} {from} {to} {lag}\n")
    }
}

/// Formats the line of the digest of the office's key.
pub(crate) fn office_line(alloc: Global, digest: &[u8; 32]) -> Result<String, AllocError>
    ensures { IfOk result (λ line. string_bytes line ≡ spec.office_line digest.now) }
{
    let hex = hex::encode(alloc, digest.as_slice())?;
    let digest = hex.as_str();
    format!(in alloc; "office {digest}\n")
}

// Formats the first values of the line of a plan.
fn plan_front(alloc: Global, key: &PlanKey, plan: &PlanRow) -> Result<String, AllocError>
    ensures { IfOk result (λ text. string_bytes text ≡ plan_front key.now plan.now) }
{
    let (desk, n, kind) = (key.desk.as_str(), key.n, plan.kind.word());
    format!(in alloc; "plan {desk} {n} {kind}")
}

/// Formats the line of a plan.
pub(crate) fn plan_line(alloc: Global, key: &PlanKey, plan: &PlanRow) -> Result<String, AllocError>
    ensures { IfOk result
        (λ line. string_bytes line ≡ spec.plan_line (plan_of key.now plan.now)) }
{
    let front = plan_front(alloc, key, plan)?;
    let name = hex::encode_upper(alloc, plan.name.as_str())?;
    let body = hex::encode_upper(alloc, plan.body.as_slice())?;
    let (front, name, body) = (front.as_str(), name.as_str(), body.as_str());
    let (start, days) = (plan.start.as_str(), plan.days.as_str());
    format!(in alloc; "{front} {name} {body} {start} {days}\n")
}
