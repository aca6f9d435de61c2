//! The calls that targets name.

ghost use Rattle.std.specs.Prelude.{◌≡◌, IfOk, string_bytes, option_map};
ghost use Rattle.std.specs.List.{slice_get, slice_split};
ghost use Rattle.plan_desk.specs.Requests.{call_in};
ghost use Rattle.plan_http.specs.Targets as spec;

use crate::routes::Route;
use plan_desk::Call;
use std::alloc::{AllocError, Global};

fn part(target: &str, k: usize) -> Option<&str>
    ensures { option_map (λ text. text.now) result
        ≡ slice_get (slice_split spec.is_slash target.now) k }
{
    target.split('/').nth(k)
}

// The segment of a target at this place, or an empty text if there is none.
#[tactic(auto, unfolding(crate::specs::Targets::segment))]
fn segment(alloc: Global, target: &str, k: usize) -> Result<String, AllocError>
    ensures { IfOk result (λ text. string_bytes text ≡ spec.segment k target.now) }
{
    String::from_str(alloc, part(target, k).unwrap_or(""))
}

/// Returns the call of a route, from the target and the body.
pub(crate) fn call_at(
    alloc: Global,
    route: Route,
    target: &str,
    body: Vec<u8>,
) -> Result<Call, AllocError>
    ensures { IfOk result (λ call. call_in call ≡ spec.call_at route target.now body.items) }
{
    Ok(match route {
        Route::Publish => Call::Publish { body },
        Route::OpenDesk => Call::OpenDesk { body },
        Route::SetKey => Call::SetKey {
            desk: segment(alloc, target, 3)?,
            body,
        },
        Route::Capacities => Call::Capacities {
            desk: segment(alloc, target, 2)?,
        },
        Route::Plans => Call::Plans {
            desk: segment(alloc, target, 2)?,
        },
        Route::ImportProject => Call::ImportProject {
            desk: segment(alloc, target, 2)?,
            body,
        },
        Route::ImportShop => Call::ImportShop {
            desk: segment(alloc, target, 2)?,
            instance: segment(alloc, target, 4)?,
            body,
        },
        Route::Remove => Call::Remove {
            desk: segment(alloc, target, 2)?,
            n: segment(alloc, target, 4)?,
        },
        Route::Bind => Call::Bind {
            desk: segment(alloc, target, 2)?,
            n: segment(alloc, target, 4)?,
            body,
        },
        Route::SetCalendar => Call::SetCalendar {
            desk: segment(alloc, target, 2)?,
            n: segment(alloc, target, 4)?,
            body,
        },
        Route::SetLag => Call::SetLag {
            desk: segment(alloc, target, 2)?,
            n: segment(alloc, target, 4)?,
            body,
        },
        Route::Dates => Call::Dates {
            desk: segment(alloc, target, 2)?,
            n: segment(alloc, target, 4)?,
        },
        Route::Schedule => Call::Schedule {
            desk: segment(alloc, target, 2)?,
            n: segment(alloc, target, 4)?,
            rule: segment(alloc, target, 6)?,
        },
        Route::Chart => Call::Chart {
            desk: segment(alloc, target, 2)?,
            n: segment(alloc, target, 4)?,
            rule: segment(alloc, target, 6)?,
        },
        Route::Days => Call::Days {
            desk: segment(alloc, target, 2)?,
            n: segment(alloc, target, 4)?,
            rule: segment(alloc, target, 6)?,
        },
        Route::Best => Call::Best {
            desk: segment(alloc, target, 2)?,
            n: segment(alloc, target, 4)?,
            budget: segment(alloc, target, 6)?,
        },
    })
}
