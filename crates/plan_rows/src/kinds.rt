//! The kinds of published codes and of plans.

/// The kind of a published code. It decides which plans can use the code.
#[derive(Debug, Clone, Copy, PartialEq, Eq, Drop)]
pub enum Kind {
    /// A crew, for projects. Its capacity is the number of units of the crew.
    Crew,
    /// A machine, for shops. It is closed if its capacity is 0.
    Machine,
}

/// The kind of a plan.
#[derive(Debug, Clone, Copy, PartialEq, Eq, Drop)]
pub enum PlanKind {
    /// A project, from a PSPLIB file.
    Project,
    /// A job shop, from an OR-Library file.
    Shop,
}

impl Kind {
    ghost use Rattle.std.specs.Prelude.{◌≡◌, ◌≢◌, MatchOption};
    ghost use Rattle.plan_rows.specs.Names.{kind_text};

    /// Returns its name: `crew` or `machine`.
    pub fn word(self) -> &'static str
        ensures { result.now ≡ kind_text self }
    {
        match self {
            Kind::Crew => "crew",
            Kind::Machine => "machine",
        }
    }

    /// Returns the kind of this name, if there is one.
    pub fn of_word(word: &[u8]) -> Option<Self>
        ensures { MatchOption result ((kind : Kind) → word.now ≢ kind_text kind)
            (λ kind. word.now ≡ kind_text kind) }
    {
        if word == b"crew".as_slice() {
            Some(Kind::Crew)
        } else if word == b"machine".as_slice() {
            Some(Kind::Machine)
        } else {
            None
        }
    }
}

impl PlanKind {
    ghost use Rattle.std.specs.Prelude.{◌≡◌, ◌≢◌, MatchOption};
    ghost use Rattle.plan_rows.specs.Names.{plan_kind_text};

    /// Returns its name: `project` or `shop`.
    pub fn word(self) -> &'static str
        ensures { result.now ≡ plan_kind_text self }
    {
        match self {
            PlanKind::Project => "project",
            PlanKind::Shop => "shop",
        }
    }

    /// Returns the kind of this name, if there is one.
    pub fn of_word(word: &[u8]) -> Option<Self>
        ensures { MatchOption result ((kind : PlanKind) → word.now ≢ plan_kind_text kind)
            (λ kind. word.now ≡ plan_kind_text kind) }
    {
        if word == b"project".as_slice() {
            Some(PlanKind::Project)
        } else if word == b"shop".as_slice() {
            Some(PlanKind::Shop)
        } else {
            None
        }
    }
}
