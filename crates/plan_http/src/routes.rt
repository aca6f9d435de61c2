//! The routes of the service.

ghost use Rattle.std.specs.Prelude.{◌≡◌, OnOk, option_map};
ghost use Rattle.std.specs.List.{list_any};
ghost use Rattle.matchit.specs.Seek.{first};
ghost use Rattle.plan_http.specs.Routes as spec;

use matchit::Router;
use std::alloc::{AllocError, Global};
use std::marker::Model;

/// A route, one for each call of an office.
#[derive(Debug, Clone, Copy, PartialEq, Eq, Drop)]
pub enum Route {
    Publish,
    OpenDesk,
    SetKey,
    Capacities,
    Plans,
    ImportProject,
    ImportShop,
    Remove,
    Bind,
    SetCalendar,
    SetLag,
    Dates,
    Schedule,
    Chart,
    Days,
    Best,
}

const ALL: [Route; 16] = [
    Route::Publish,
    Route::OpenDesk,
    Route::SetKey,
    Route::Capacities,
    Route::Plans,
    Route::ImportProject,
    Route::ImportShop,
    Route::Remove,
    Route::Bind,
    Route::SetCalendar,
    Route::SetLag,
    Route::Dates,
    Route::Schedule,
    Route::Chart,
    Route::Days,
    Route::Best,
];

impl Route {
    /// Returns its text. A name in braces matches one segment.
    pub fn text(self) -> &'static str
        ensures { result.now ≡ spec.text_of self }
    {
        match self {
            Route::Publish => "/office/capacities",
            Route::OpenDesk => "/office/desks",
            Route::SetKey => "/office/desks/{desk}/key",
            Route::Capacities => "/desks/{desk}/capacities",
            Route::Plans => "/desks/{desk}/plans",
            Route::ImportProject => "/desks/{desk}/projects",
            Route::ImportShop => "/desks/{desk}/shops/{instance}",
            Route::Remove => "/desks/{desk}/plans/{n}",
            Route::Bind => "/desks/{desk}/plans/{n}/bind",
            Route::SetCalendar => "/desks/{desk}/plans/{n}/calendar",
            Route::SetLag => "/desks/{desk}/plans/{n}/lag",
            Route::Dates => "/desks/{desk}/plans/{n}/dates",
            Route::Schedule => "/desks/{desk}/plans/{n}/schedule/{rule}",
            Route::Chart => "/desks/{desk}/plans/{n}/chart/{rule}",
            Route::Days => "/desks/{desk}/plans/{n}/days/{rule}",
            Route::Best => "/desks/{desk}/plans/{n}/best/{budget}",
        }
    }

    /// Returns its method.
    pub fn method(self) -> &'static str
        ensures { result.now ≡ spec.method_of self }
    {
        match self {
            Route::Remove => "DELETE",
            Route::Capacities
            | Route::Plans
            | Route::Dates
            | Route::Schedule
            | Route::Chart
            | Route::Days
            | Route::Best => "GET",
            Route::Publish
            | Route::OpenDesk
            | Route::SetKey
            | Route::ImportProject
            | Route::ImportShop
            | Route::Bind
            | Route::SetCalendar
            | Route::SetLag => "POST",
        }
    }
}

/// The table of all routes.
#[derive(Drop)]
pub struct Routes {
    router: Router<Route>,
}

impl Model for Routes {
    ghost Value = { spec.Table };

    ghost view = { λ routes. routes.router };

    ghost invariant = { λ routes. routes.router ≡ spec.route_table };
}

fn add_route(router: &mut Router<Route>, route: Route) -> Result<(), AllocError>
    ensures { OnOk result (router.new ≡ spec.with_route route router.old) }
{
    let Ok(()) = router.insert(route.text(), route) else {
        return Err(AllocError);
    };
    Ok(())
}

fn add_routes(router: &mut Router<Route>, routes: &[Route]) -> Result<(), AllocError>
    ensures { OnOk result (router.new ≡ spec.with_routes routes.now router.old) }
{
    for route in routes {
        add_route(router, *route)?;
    }
    Ok(())
}

impl Routes {
    /// Returns the table of all routes. It fails only if memory runs out.
    pub fn new(alloc: Global) -> Result<Routes, AllocError> {
        let mut router = Router::new(alloc);
        add_routes(&mut router, &ALL)?;
        Ok(Routes { router })
    }

    // The route that a path matches.
    fn find(&self, path: &str) -> Option<Route>
        ensures { result ≡ option_map (λ row. row.value) (first spec.route_table path.now) }
    {
        match self.router.at(path) {
            Ok(found) => Some(*found.value),
            Err(_) => None,
        }
    }

    /// Returns the route of a target, if there is one.
    #[tactic(auto, unfolding(crate::specs::Routes::route_of))]
    pub fn of(&self, target: &str) -> Option<Route>
        ensures { result ≡ spec.route_of target.now }
    {
        if is_plain(target.as_bytes()) {
            return self.find(target);
        }
        None
    }
}

fn is_mark(byte: u8) -> bool
    ensures { result ≡ spec.is_mark byte }
{
    byte == b'?' || byte == b'%' || byte == b'#'
}

fn has_mark(target: &[u8]) -> bool
    ensures { result ≡ list_any spec.is_mark target.now }
{
    target.iter().any(|byte| is_mark(*byte))
}

// Whether a target can have a route: it begins with a slash and has no query, escape or fragment.
fn is_plain(target: &[u8]) -> bool
    ensures { result ≡ spec.is_plain_target target.now }
{
    match target.first() {
        Some(byte) => *byte == b'/' && !has_mark(target),
        None => false,
    }
}
