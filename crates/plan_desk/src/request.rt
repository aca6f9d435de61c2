//! Requests of desks and of the office.

ghost use Rattle.std.specs.Prelude.{◌≡◌};
ghost use Rattle.plan_desk.specs.Requests.{call_in, path_of};

/// A call, one variant for each route. The parts of a path and the bodies are the texts that were
/// sent; they are checked when the call is handled.
#[derive(Debug, Drop)]
pub enum Call {
    /// Publishes a code, or gives a published one another capacity.
    Publish {
        body: Vec<u8>,
    },
    /// Opens a desk.
    OpenDesk {
        body: Vec<u8>,
    },
    /// Gives a desk another key.
    SetKey {
        desk: String,
        body: Vec<u8>,
    },
    /// Lists the published codes.
    Capacities {
        desk: String,
    },
    /// Lists the plans of a desk.
    Plans {
        desk: String,
    },
    /// Stores the project of a PSPLIB text as a plan.
    ImportProject {
        desk: String,
        body: Vec<u8>,
    },
    /// Stores the job shop of an instance in an OR-Library text as a plan.
    ImportShop {
        desk: String,
        instance: String,
        body: Vec<u8>,
    },
    /// Removes a plan.
    Remove {
        desk: String,
        n: String,
    },
    /// Binds a published code to a place of a plan.
    Bind {
        desk: String,
        n: String,
        body: Vec<u8>,
    },
    /// Gives a plan a calendar.
    SetCalendar {
        desk: String,
        n: String,
        body: Vec<u8>,
    },
    /// Gives an arc of a project a lag.
    SetLag {
        desk: String,
        n: String,
        body: Vec<u8>,
    },
    /// Shows the dates of a project.
    Dates {
        desk: String,
        n: String,
    },
    /// Shows the schedule of a plan by a rule.
    Schedule {
        desk: String,
        n: String,
        rule: String,
    },
    /// Shows the chart of a schedule.
    Chart {
        desk: String,
        n: String,
        rule: String,
    },
    /// Shows the working days of a schedule.
    Days {
        desk: String,
        n: String,
        rule: String,
    },
    /// Shows the best schedule of a plan that a search within a budget finds.
    Best {
        desk: String,
        n: String,
        budget: String,
    },
}

/// A call, and the key that was sent with it, if there was one.
#[derive(Debug, Drop)]
pub struct Request {
    pub key: Option<Vec<u8>>,
    pub call: Call,
}

impl Call {
    // The desk on the path: empty for a call that publishes a code or opens a desk.
    pub(crate) fn path(&self) -> &str
        ensures { result.now ≡ path_of (call_in self.now) }
    {
        match self {
            Call::Publish { .. } | Call::OpenDesk { .. } => "",
            Call::SetKey { desk, .. }
            | Call::Capacities { desk }
            | Call::Plans { desk }
            | Call::ImportProject { desk, .. }
            | Call::ImportShop { desk, .. }
            | Call::Remove { desk, .. }
            | Call::Bind { desk, .. }
            | Call::SetCalendar { desk, .. }
            | Call::SetLag { desk, .. }
            | Call::Dates { desk, .. }
            | Call::Schedule { desk, .. }
            | Call::Chart { desk, .. }
            | Call::Days { desk, .. }
            | Call::Best { desk, .. } => desk.as_str(),
        }
    }
}
