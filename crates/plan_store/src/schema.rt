//! The tables of an office: the columns of each, and the statements that name all of them.
//!
//! A new column begins here: in the list of columns and in each statement of its table. Then add it
//! to the table in specs/Tables.antt, to the row in specs/Rows.antt and to the readers of rows
//! (`query_rows`, `keyed_rows` and `untrusted_rows`).

use sqlite_schema::schema::Kind;

/// The columns of `meta`, which has one row: the version of the tables, and the digest of the
/// office's key.
pub const META_COLUMNS: [(&str, Kind); 3] = [
    ("id", Kind::Integer),
    ("version", Kind::Integer),
    ("office", Kind::Text),
];

pub const CREATE_META: &str = "CREATE TABLE meta (\
    id INTEGER NOT NULL PRIMARY KEY, \
    version INTEGER NOT NULL, \
    office TEXT NOT NULL) STRICT";

pub const INSERT_META: &str = "INSERT INTO meta (id, version, office) VALUES (1, 2, ?1)";

pub const SELECT_META: &str = "SELECT id, version, office FROM meta ORDER BY rowid";

/// The columns of `published`, whose key is `code`.
pub const PUBLISHED_COLUMNS: [(&str, Kind); 3] = [
    ("code", Kind::Text),
    ("kind", Kind::Text),
    ("capacity", Kind::Integer),
];

pub const CREATE_PUBLISHED: &str = "CREATE TABLE published (\
    code TEXT NOT NULL, \
    kind TEXT NOT NULL, \
    capacity INTEGER NOT NULL, \
    PRIMARY KEY (code)) STRICT";

pub const INSERT_PUBLISHED: &str =
    "INSERT INTO published (code, kind, capacity) VALUES (?1, ?2, ?3)";

/// Selects the published codes in the order of writing.
pub const SELECT_PUBLISHED: &str = "SELECT code, kind, capacity FROM published ORDER BY rowid";

/// Selects the published codes in the order of the key.
pub const LIST_PUBLISHED: &str = "SELECT code, kind, capacity FROM published ORDER BY code, rowid";

/// The columns of `desks`, whose key is `desk`.
pub const DESK_COLUMNS: [(&str, Kind); 3] = [
    ("desk", Kind::Text),
    ("digest", Kind::Text),
    ("next", Kind::Integer),
];

pub const CREATE_DESKS: &str = "CREATE TABLE desks (\
    desk TEXT NOT NULL, \
    digest TEXT NOT NULL, \
    next INTEGER NOT NULL, \
    PRIMARY KEY (desk)) STRICT";

pub const INSERT_DESK: &str = "INSERT INTO desks (desk, digest, next) VALUES (?1, ?2, 1)";

/// Selects the desks in the order of writing.
pub const SELECT_DESKS: &str = "SELECT desk, digest, next FROM desks ORDER BY rowid";

/// Selects the desks in the order of the key.
pub const LIST_DESKS: &str = "SELECT desk, digest, next FROM desks ORDER BY desk, rowid";

/// The columns of `plans`, whose key is `desk, n`.
pub const PLAN_COLUMNS: [(&str, Kind); 7] = [
    ("desk", Kind::Text),
    ("n", Kind::Integer),
    ("kind", Kind::Text),
    ("name", Kind::Text),
    ("body", Kind::Blob),
    ("start", Kind::Text),
    ("days", Kind::Text),
];

pub const CREATE_PLANS: &str = "CREATE TABLE plans (\
    desk TEXT NOT NULL, \
    n INTEGER NOT NULL, \
    kind TEXT NOT NULL, \
    name TEXT NOT NULL, \
    body BLOB NOT NULL, \
    start TEXT NOT NULL, \
    days TEXT NOT NULL, \
    PRIMARY KEY (desk, n)) STRICT";

/// Inserts a plan without a calendar.
pub const INSERT_PLAN: &str = "INSERT INTO plans (desk, n, kind, name, body, start, days) \
    VALUES (?1, ?2, ?3, ?4, ?5, '', '')";

/// Selects the plans in the order of writing.
pub const SELECT_PLANS: &str =
    "SELECT desk, n, kind, name, body, start, days FROM plans ORDER BY rowid";

/// Selects the columns of one plan that aren't its key.
pub const SELECT_PLAN: &str =
    "SELECT kind, name, body, start, days FROM plans WHERE desk = ?1 AND n = ?2 ORDER BY rowid";

/// The columns of `binds`, whose key is `desk, n, place`.
pub const BIND_COLUMNS: [(&str, Kind); 4] = [
    ("desk", Kind::Text),
    ("n", Kind::Integer),
    ("place", Kind::Integer),
    ("code", Kind::Text),
];

pub const CREATE_BINDS: &str = "CREATE TABLE binds (\
    desk TEXT NOT NULL, \
    n INTEGER NOT NULL, \
    place INTEGER NOT NULL, \
    code TEXT NOT NULL, \
    PRIMARY KEY (desk, n, place)) STRICT";

pub const INSERT_BIND: &str = "INSERT INTO binds (desk, n, place, code) VALUES (?1, ?2, ?3, ?4)";

/// Selects the binds in the order of writing.
pub const SELECT_BINDS: &str = "SELECT desk, n, place, code FROM binds ORDER BY rowid";

/// Selects the binds in the order of the key.
pub const LIST_BINDS: &str =
    "SELECT desk, n, place, code FROM binds ORDER BY desk, n, place, rowid";

/// The columns of `lags`, whose key is `desk, n, src, dst`. The first version has no lags.
pub const LAG_COLUMNS: [(&str, Kind); 5] = [
    ("desk", Kind::Text),
    ("n", Kind::Integer),
    ("src", Kind::Integer),
    ("dst", Kind::Integer),
    ("lag", Kind::Integer),
];

pub const CREATE_LAGS: &str = "CREATE TABLE lags (\
    desk TEXT NOT NULL, \
    n INTEGER NOT NULL, \
    src INTEGER NOT NULL, \
    dst INTEGER NOT NULL, \
    lag INTEGER NOT NULL, \
    PRIMARY KEY (desk, n, src, dst)) STRICT";

pub const INSERT_LAG: &str =
    "INSERT INTO lags (desk, n, src, dst, lag) VALUES (?1, ?2, ?3, ?4, ?5)";

/// Selects the lags in the order of writing.
pub const SELECT_LAGS: &str = "SELECT desk, n, src, dst, lag FROM lags ORDER BY rowid";

/// Selects the lags in the order of the key.
pub const LIST_LAGS: &str =
    "SELECT desk, n, src, dst, lag FROM lags ORDER BY desk, n, src, dst, rowid";
