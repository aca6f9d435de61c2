//! Replies: refusals, answers in JSON, and pages.

ghost use Rattle.std.specs.Prelude.{◌≡◌, ◌++◌, IfOk, string_bytes, codes};
ghost use Rattle.plan_desk.specs.declared.reply.ReplyKind.TheVariants.{Plain};
ghost use Rattle.plan_desk.specs.Calls as calls;
ghost use Rattle.plan_desk.specs.Refusals as refusals;
ghost use Rattle.plan_desk.specs.Replies.{reply_of};

use std::alloc::{AllocError, Global};

/// The media type of a reply.
#[derive(Debug, Clone, Copy, PartialEq, Eq, Drop)]
pub enum ReplyKind {
    /// Plain text.
    Plain,
    /// JSON.
    Json,
}

/// The body of a reply, with its last line feed.
#[derive(Debug, Drop)]
pub enum Body {
    /// A constant text, which needs no memory.
    Fixed(&'static str),
    /// A text that was built for this reply.
    Owned(String),
}

/// A reply: a status of RFC 9110, the media type, and the body.
#[derive(Debug, Drop)]
pub struct Reply {
    pub status: u16,
    pub kind: ReplyKind,
    pub body: Body,
}

// A refusal with a constant line.
fn fixed_reply(status: u16, line: &'static str) -> Reply
    ensures { reply_of result ≡ record { status = status; kind = Plain; body = line.now } }
{
    Reply {
        status,
        kind: ReplyKind::Plain,
        body: Body::Fixed(line),
    }
}

pub(crate) fn no_key() -> Reply
    ensures { reply_of result ≡ calls.no_key }
{
    fixed_reply(403, "E01 key\n")
}

pub(crate) fn not_found() -> Reply
    ensures { reply_of result ≡ refusals.not_found }
{
    fixed_reply(404, "E02 not found\n")
}

pub(crate) fn bad_body() -> Reply
    ensures { reply_of result ≡ refusals.bad_body }
{
    fixed_reply(400, "E03 body\n")
}

pub(crate) fn desk_exists() -> Reply
    ensures { reply_of result ≡ refusals.desk_exists }
{
    fixed_reply(409, "E04 desk exists\n")
}

pub(crate) fn unpublished() -> Reply
    ensures { reply_of result ≡ refusals.unpublished }
{
    fixed_reply(404, "E05 code not published\n")
}

pub(crate) fn kind_differs() -> Reply
    ensures { reply_of result ≡ refusals.kind_differs }
{
    fixed_reply(409, "E06 kind differs\n")
}

pub(crate) fn other_kind() -> Reply
    ensures { reply_of result ≡ refusals.other_kind }
{
    fixed_reply(409, "E07 other kind of plan\n")
}

pub(crate) fn many_plans() -> Reply
    ensures { reply_of result ≡ refusals.many_plans }
{
    fixed_reply(409, "E08 100 plans\n")
}

pub(crate) fn numbers_spent() -> Reply
    ensures { reply_of result ≡ refusals.numbers_spent }
{
    fixed_reply(409, "E09 numbers spent\n")
}

// Memory ran out.
pub(crate) fn no_memory() -> Reply
    ensures { reply_of result ≡ calls.refusal 503 (codes "E90 memory") }
{
    fixed_reply(503, "E90 memory\n")
}

pub(crate) fn store_refused() -> Reply
    ensures { reply_of result ≡ calls.refusal 507 (codes "E91 store") }
{
    fixed_reply(507, "E91 store\n")
}

// A line of two texts.
fn line(alloc: Global, front: &str, text: &str) -> Result<String, AllocError>
    ensures { IfOk result (λ made. string_bytes made ≡ calls.line (front.now ++ text.now)) }
{
    let mut made = String::from_str(alloc, front)?;
    made.push_str(text)?;
    made.push_str("\n")?;
    Ok(made)
}

// A refusal with status 422, whose line gives the cause.
fn unusable_reply(alloc: Global, front: &str, text: &str) -> Result<Reply, AllocError>
    ensures { IfOk result (λ reply. reply_of reply ≡ calls.refusal 422 (front.now ++ text.now)) }
{
    Ok(Reply {
        status: 422,
        kind: ReplyKind::Plain,
        body: Body::Owned(line(alloc, front, text)?),
    })
}

// The refusal of a file: the line of its fault.
pub(crate) fn bad_file(alloc: Global, text: &str) -> Result<Reply, AllocError>
    ensures { IfOk result (λ reply. reply_of reply ≡ refusals.bad_file text.now) }
{
    unusable_reply(alloc, "E10 ", text)
}

// The refusal of a schedule: the cause.
pub(crate) fn bad_schedule(alloc: Global, text: &str) -> Result<Reply, AllocError>
    ensures { IfOk result (λ reply. reply_of reply ≡ refusals.bad_schedule text.now) }
{
    unusable_reply(alloc, "E11 ", text)
}

// The refusal of a calendar: the cause.
pub(crate) fn bad_calendar(alloc: Global, text: &str) -> Result<Reply, AllocError>
    ensures { IfOk result (λ reply. reply_of reply ≡ refusals.bad_calendar text.now) }
{
    unusable_reply(alloc, "E12 ", text)
}

// An answer in JSON.
pub(crate) fn answer(alloc: Global, status: u16, text: &str) -> Result<Reply, AllocError>
    ensures { IfOk result (λ reply. reply_of reply ≡ calls.answer status text.now) }
{
    Ok(Reply {
        status,
        kind: ReplyKind::Json,
        body: Body::Owned(line(alloc, "", text)?),
    })
}

// A page: a complete text with its line feeds.
pub(crate) fn page(text: String) -> Reply
    ensures { reply_of result ≡ calls.page (string_bytes text) }
{
    Reply {
        status: 200,
        kind: ReplyKind::Plain,
        body: Body::Owned(text),
    }
}
