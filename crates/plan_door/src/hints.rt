//! The hints for faults whose line doesn't name their cause.

ghost use Rattle.std.specs.Prelude.{◌≡◌, IfOk, option_map, string_bytes};
ghost use Rattle.plan_door.specs.Hints.{cause_hint, missing_hint};

use crate::fault::ServeFault;
use std::alloc::{AllocError, Global};

/// The office of a command, as hints name it.
#[derive(Clone, Copy)]
pub struct Target<'a> {
    /// The name of its file.
    pub database: &'a str,
    /// Whether the command creates it.
    pub is_new: bool,
    /// The port on which it is served; 0 if it isn't.
    pub port: u16,
}

impl<'a> Target<'a> {
    // Returns the hint for a file that doesn't exist.
    fn missing_hint(&self, alloc: Global) -> Result<String, AllocError>
        ensures { IfOk result (λ text.
            string_bytes text ≡ missing_hint self.now.is_new self.now.database.now) }
    {
        let database = self.database;
        if self.is_new {
            return format!(in alloc; "hint: there is no folder for {database}");
        }
        format!(in alloc; "hint: there is no {database}")
    }

    /// Returns the hint for the cause of a fault, such as `hint: office.db already holds an office`.
    /// There is none if the line of the fault names the cause.
    pub fn hint(&self, alloc: Global, fault: ServeFault) -> Result<Option<String>, AllocError>
        ensures { IfOk result (λ text. option_map string_bytes text
            ≡ cause_hint self.now.database.now self.now.is_new self.now.port fault) }
    {
        let (database, port) = (self.database, self.port);
        let text = match fault {
            ServeFault::Taken => format!(in alloc; "hint: {database} already holds an office")?,
            ServeFault::Locked => format!(in alloc; "hint: {database} is open in another program")?,
            ServeFault::Missing => self.missing_hint(alloc)?,
            ServeFault::Denied => {
                format!(in alloc; "hint: this user can't write {database} or its folder")?
            }
            ServeFault::PortTaken => format!(in alloc; "hint: port {port} is in use")?,
            ServeFault::PortDenied => {
                format!(in alloc; "hint: this user can't listen on port {port}")?
            }
            ServeFault::Memory
            | ServeFault::Store
            | ServeFault::NotOurs
            | ServeFault::Version
            | ServeFault::Key
            | ServeFault::Input
            | ServeFault::Socket
            | ServeFault::Output => return Ok(None),
        };
        Ok(Some(text))
    }
}
