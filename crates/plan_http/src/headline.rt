//! The headline, as the contract of a public call.

ghost use Rattle.std.specs.Prelude.{◌≡◌, length, map, vec_items, OnOk};
ghost use Rattle.plan_rows.specs.World.{Text};
ghost use Rattle.plan_rows.specs.Views.{view, Agree};
ghost use Rattle.plan_http.specs.Connections.{IsRunOf};
ghost use Rattle.plan_http.specs.Isolated.{IsApart};
ghost use Rattle.plan_http.specs.Headline.{Alike, ApartRunsAreAlike};
ghost use Rattle.plan_http.specs.Shards.{ShardsAreOneOffice};

use crate::runs::{RunFault, serve_run};
use plan_desk::{Book, Office};
use std::alloc::Global;

/// A run: its responses in the order of their connections, and its end. If memory ran out, they are
/// the responses to its first connections.
#[derive(Debug, Drop)]
pub struct Run {
    pub responses: Vec<Vec<u8>>,
    pub end: Result<(), RunFault>,
}

/// Two runs.
#[derive(Debug, Drop)]
pub struct TwoRuns {
    pub first: Run,
    pub second: Run,
}

// Serves connections one after another, and collects the responses.
fn make_run<B: Book>(alloc: Global, office: &mut Office<B>, conns: &[Vec<u8>]) -> Run
    ensures served { IsRunOf B.shelf office.old office.new (map vec_items conns.now)
        (map vec_items result.responses.items) result.end }
    ensures whole { OnOk result.end (length result.responses.items ≡ length conns.now) }
    ensures apart { B.shelf.honest office.new → (desk : Text)
        → IsApart B.shelf office.old office.new (map vec_items conns.now)
        (map vec_items result.responses.items) desk }
{
    let mut responses = Vec::new(alloc);
    let end = serve_run(alloc, office, conns, &mut responses);
    Run { responses, end }
}

/// Two runs are alike for each desk whose views agree at the start. In each run the desk must
/// receive the replies of an office that has its rows and no others. This law follows from the
/// contract of `serve_run`.
pub fn apart_runs_are_alike<A: Book, B: Book>()
    ensures { ApartRunsAreAlike A.shelf B.shelf }
{}

/// One office on many servers. Desks are assigned to servers in any way. Each server gets the
/// connections of its desks and all connections of the office, in their order, and the desk's views
/// agree at the start. Then a desk receives from its server the responses of one office that serves
/// all connections, byte for byte. This holds unless a request of its story is refused for lack of
/// memory or by the store. Connections without a request may go to any server. This law follows
/// from the contract of `serve_run`.
pub fn shards_are_one_office<A: Book, B: Book>()
    ensures { ShardsAreOneOffice A.shelf B.shelf }
{}

/// Serves connections by one office and others by another, over books of any two kinds.
///
/// In any two worlds that agree on one desk's rows, its key and the published capacities and
/// receive the same requests from that desk and the same publications, that desk's replies are
/// equal byte for byte, whatever other desks send before or between; and each date is a
/// longest-path date, each generated schedule feasible and active, each schedule reported optimal
/// of least makespan among all feasible ones.
///
/// This requires tables that are readable at the start, and disks that returned what was written.
/// No request of the desk's story is refused for lack of memory or by the store. Two keys with one
/// digest count as one key. A run without a fault has answered each connection, once and in order.
pub fn serve_two_worlds<A: Book, B: Book>(
    alloc: Global,
    first: &mut Office<A>,
    second: &mut Office<B>,
    conns: &[Vec<u8>],
    others: &[Vec<u8>],
) -> TwoRuns
    ensures first { IsRunOf A.shelf first.old first.new (map vec_items conns.now)
        (map vec_items result.first.responses.items) result.first.end }
    ensures second { IsRunOf B.shelf second.old second.new (map vec_items others.now)
        (map vec_items result.second.responses.items) result.second.end }
    ensures first_whole { OnOk result.first.end
        (length result.first.responses.items ≡ length conns.now) }
    ensures second_whole { OnOk result.second.end
        (length result.second.responses.items ≡ length others.now) }
    ensures headline { A.shelf.honest first.new → B.shelf.honest second.new
        → A.shelf.stands first.old → B.shelf.stands second.old
        → (desk : Text)
        → Agree (view desk (A.shelf.world first.old)) (view desk (B.shelf.world second.old))
        → Alike A.shelf B.shelf first.old second.old (map vec_items conns.now)
        (map vec_items result.first.responses.items) (map vec_items others.now)
        (map vec_items result.second.responses.items) desk }
{
    TwoRuns {
        first: make_run(alloc, first, conns),
        second: make_run(alloc, second, others),
    }
}
