//! The options of `plan serve`.

/// The options of `plan serve`.
#[derive(Clone, Copy, Drop)]
pub struct Service<'a> {
    /// The file of the office.
    pub database: &'a str,
    /// The port on this machine.
    pub port: u16,
    /// The number of connections that are served.
    pub count: u32,
    /// The seconds that a connection has for its request, and again for its response.
    pub patience: u32,
    /// Whether each served connection is logged on standard error.
    pub is_logged: bool,
}
