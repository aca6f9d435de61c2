//! Decisions: the complete reply to a request, and the change that follows.

ghost use Rattle.std.specs.Prelude.{◌≡◌};
ghost use Rattle.plan_desk.specs.declared.change.Change.TheVariants.{Keep};

use crate::reply::Reply;
use plan_rows::{Kind, PlanKind};

// A change of the rows: one variant for each writing call of a book, and one for no call.
#[derive(Drop)]
pub(crate) enum Change<'a> {
    Keep,
    Publish {
        code: String,
        kind: Kind,
        capacity: u64,
    },
    OpenDesk {
        name: String,
        digest: [u8; 32],
    },
    SetKey {
        digest: [u8; 32],
    },
    AddPlan {
        kind: PlanKind,
        name: &'a str,
        body: &'a [u8],
    },
    RemovePlan {
        n: u64,
    },
    BindPlace {
        n: u64,
        place: u64,
        code: String,
    },
    SetCalendar {
        n: u64,
        start: String,
        days: String,
    },
    SetLag {
        n: u64,
        from: u32,
        to: u32,
        lag: u64,
    },
}

// A reply, and the change that is made before the reply is sent.
#[derive(Drop)]
pub(crate) struct Decision<'a> {
    pub reply: Reply,
    pub change: Change<'a>,
}

// The decision to send a reply and to change nothing.
pub(crate) fn without_change(reply: Reply) -> Decision<'static>
    ensures reply { result.reply ≡ reply }
    ensures change { result.change ≡ Keep }
{
    Decision {
        reply,
        change: Change::Keep,
    }
}
