//! The admission of requests: which key a call needs, and the tests of the key that was sent.

ghost use Rattle.std.specs.Prelude.{◌≡◌, ◌&&◌, IfOk, is_some, option_map};
ghost use Rattle.plan_desk.specs.BookSteps.{Finds, IsAdmission, IsLock};
ghost use Rattle.plan_desk.specs.Requests.{request_in};
ghost use Rattle.plan_rows.specs.Names as names;
ghost use Rattle.plan_rows.specs.World.{desk_in};
ghost use Rattle.plan_rows.specs.Books.{Matches, IsDeskAnswer};

use crate::request::{Call, Request};
use plan_rows::{Book, BookFault, DeskRow, has_key};

// Whether a request has the key that its call needs. For a call of a desk also the row of the desk
// on its path.
#[derive(Drop)]
pub(crate) struct Admission {
    pub is_admitted: bool,
    pub row: Option<DeskRow>,
}

// Whether a key is the office's.
fn opens_office<B: Book>(book: &mut B, key: Option<&[u8]>) -> Result<Admission, BookFault>
    ensures found { Finds B.shelf book.old book.new (λ w admission. admission.is_admitted
        ≡ names.has_key (option_map (λ k. k.now) key.entry) w.office) result }
    ensures stands { IfOk result (λ _. B.shelf.honest book.new → B.shelf.stands book.new) }
{
    let digest = book.office()?;
    Ok(Admission {
        is_admitted: has_key(key, &digest),
        row: None,
    })
}

// The row of a desk, and the digest that a key is compared with: zeros if there is no row.
#[derive(Drop)]
struct Lock {
    row: Option<DeskRow>,
    digest: [u8; 32],
}

// Reads the row of a desk. A desk that doesn't exist is looked up twice, because a second lookup
// takes about as long as reading a row. So the time of a refusal doesn't reveal whether the desk
// exists.
fn lock_of<B: Book>(book: &mut B, desk: &str) -> Result<Lock, BookFault>
    ensures found { Finds B.shelf book.old book.new
        (λ w lock. IsLock (desk_in w desk.now) lock) result }
    ensures stands { IfOk result (λ _. B.shelf.honest book.new → B.shelf.stands book.new) }
{
    let mut row = book.desk(desk)?;
    if row.is_none() {
        row = book.desk(desk)?;
    }
    let digest = match &row {
        Some(row) => row.digest,
        None => [0; 32],
    };
    Ok(Lock { row, digest })
}

// Whether a key is that of an existing desk. The key is hashed and compared in either case, so that
// the time of a refusal doesn't reveal whether the desk exists.
fn opens(key: Option<&[u8]>, lock: &Lock) -> bool
    ensures { result ≡ (names.has_key (option_map (λ k. k.now) key.entry) lock.now.digest
        && is_some lock.now.row) }
{
    let is_its_own = has_key(key, &lock.digest);
    is_its_own && lock.row.is_some()
}

// Whether a key is that of the desk on a path.
fn opens_desk<B: Book>(book: &mut B, key: Option<&[u8]>, desk: &str) -> Result<Admission, BookFault>
    ensures found { Finds B.shelf book.old book.new
        (λ w admission. (admission.is_admitted
        ≡ names.unlocks (option_map (λ k. k.now) key.entry) (desk_in w desk.now))
        × Matches IsDeskAnswer (desk_in w desk.now) admission.row) result }
    ensures stands { IfOk result (λ _. B.shelf.honest book.new → B.shelf.stands book.new) }
{
    let lock = lock_of(book, desk)?;
    Ok(Admission {
        is_admitted: opens(key, &lock),
        row: lock.row,
    })
}

// Whether a request has the key that its call takes: the office's, or that of the desk on its path.
pub(crate) fn admit<B: Book>(book: &mut B, request: &Request) -> Result<Admission, BookFault>
    ensures found { Finds B.shelf book.old book.new (IsAdmission (request_in request.now)) result }
    ensures stands { IfOk result (λ _. B.shelf.honest book.new → B.shelf.stands book.new) }
{
    let key = request.key.as_deref();
    match &request.call {
        Call::Publish { .. } | Call::OpenDesk { .. } | Call::SetKey { .. } => {
            opens_office(book, key)
        }
        call => opens_desk(book, key, call.path()),
    }
}
