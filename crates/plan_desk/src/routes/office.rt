//! The routes of the office: publish a code, open a desk, set the key of a desk.

ghost use Rattle.std.specs.Prelude.{◌≡◌, [], unwrap_or};
ghost use Rattle.plan_desk.specs.Bodies.{desk_named};
ghost use Rattle.plan_desk.specs.OfficeRoutes as routes;
ghost use Rattle.plan_desk.specs.BookSteps.{Decides};
ghost use Rattle.plan_rows.specs.Books.{Matches, IsCapacityAnswer};

use crate::answers::{code_answer, desk_answer};
use crate::bodies::{desk_body, key_body, publish_body};
use crate::change::{Change, Decision, without_change};
use crate::reply::{bad_body, desk_exists, kind_differs, not_found};
use plan_rows::{Book, BookFault, Kind, key_digest};
use std::alloc::Global;

// Whether the code is published with another kind.
fn is_other_kind(kind: Kind, row: Option<(Kind, u64)>) -> bool
    ensures { (o : _) → Matches IsCapacityAnswer o row
        → result ≡ routes.is_other_kind kind o }
{
    match row {
        Some((found, _)) => found != kind,
        None => false,
    }
}

// Publishes a code, or gives a published code of the same kind another capacity.
pub(crate) fn publish_code<B: Book>(
    book: &mut B,
    alloc: Global,
    body: &[u8],
) -> Result<Decision<'static>, BookFault>
    ensures { Decides B.shelf book.old book.new [] []
        (λ v. routes.Publishes v.published body.now) result }
{
    let Some(body) = publish_body(alloc, body)? else {
        return Ok(without_change(bad_body()));
    };
    let row = book.capacity(body.code.as_str())?;
    if is_other_kind(body.kind, row) {
        return Ok(without_change(kind_differs()));
    }
    Ok(Decision {
        reply: code_answer(alloc, &body)?,
        change: Change::Publish {
            code: body.code,
            kind: body.kind,
            capacity: body.capacity,
        },
    })
}

// Opens a desk, unless it exists.
pub(crate) fn open_desk<B: Book>(
    book: &mut B,
    alloc: Global,
    body: &[u8],
) -> Result<Decision<'static>, BookFault>
    ensures { Decides B.shelf book.old book.new [] (unwrap_or (desk_named body.now) [])
        (λ v. routes.Opens v body.now) result }
{
    let Some(body) = desk_body(alloc, body)? else {
        return Ok(without_change(bad_body()));
    };
    let Some(digest) = key_digest(body.key.as_bytes()) else {
        return Ok(without_change(bad_body()));
    };
    if book.desk(body.desk.as_str())?.is_some() {
        return Ok(without_change(desk_exists()));
    }
    Ok(Decision {
        reply: desk_answer(alloc, 201, body.desk.as_str())?,
        change: Change::OpenDesk {
            name: body.desk,
            digest,
        },
    })
}

// Gives an existing desk another key.
pub(crate) fn set_key<B: Book>(
    book: &mut B,
    alloc: Global,
    desk: &str,
    body: &[u8],
) -> Result<Decision<'static>, BookFault>
    ensures { Decides B.shelf book.old book.new desk.now desk.now
        (λ v. routes.SetsKey v desk.now body.now) result }
{
    if book.desk(desk)?.is_none() {
        return Ok(without_change(not_found()));
    }
    let Some(key) = key_body(alloc, body)? else {
        return Ok(without_change(bad_body()));
    };
    let Some(digest) = key_digest(key.as_bytes()) else {
        return Ok(without_change(bad_body()));
    };
    Ok(Decision {
        reply: desk_answer(alloc, 200, desk)?,
        change: Change::SetKey { digest },
    })
}
