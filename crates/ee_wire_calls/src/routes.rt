//! The routes of the counter.
ghost use Rattle.std.specs.Prelude.{◌≡◌, [], IfOk, OnOk};
ghost use Rattle.ee_wire_calls.specs.Routes.{posts, routes, route_of};

use matchit::{InsertError, Router};
use std::alloc::{AllocError, Global};
use std::marker::Model;

/// A route of requests, sent by POST.
#[derive(Clone, Copy)]
pub enum Post {
    Rates,
    Bonds,
    DayOpen,
    DayClose,
    Redeem,
}

/// A route of queries, sent by GET.
#[derive(Clone, Copy)]
pub enum Get {
    Inventory,
    Ticket,
    Batch,
    Value,
}

/// A route of the counter.
#[derive(Clone, Copy)]
pub enum Route {
    Post(Post),
    Get(Get),
}

/// The nine routes of the counter. Only `Routes::new` makes them.
#[derive(Drop)]
pub struct Routes {
    router: Router<Route>,
}

impl Model for Routes {
    ghost use Rattle.std.specs.Prelude.{◌≡◌};
    ghost use Rattle.ee_wire_calls.specs.Routes as spec;

    ghost Value = { spec.Routes };

    ghost view = { λ r. r.router };

    ghost invariant = { λ r. r.router ≡ spec.routes };
}

impl Routes {
    /// The routes, which are the same for every message.
    pub fn new(alloc: Global) -> Result<Routes, AllocError>
        ensures { IfOk result (λ r. r ≡ routes) }
    {
        match router(alloc) {
            Ok(router) => Ok(Routes { router }),
            Err(_) => Err(AllocError),
        }
    }

    /// The route of a path.
    pub(crate) fn of(&self, path: &str) -> Option<Route>
        ensures { result ≡ route_of path.now }
    {
        match self.router.at(path) {
            Ok(found) => Some(*found.value),
            Err(_) => None,
        }
    }
}

/// Adds the routes of requests.
fn add_posts(router: &mut Router<Route>) -> Result<(), InsertError>
    ensures { router.old ≡ [] → OnOk result (router.new ≡ posts) }
{
    router.insert("/rates", Route::Post(Post::Rates))?;
    router.insert("/bonds", Route::Post(Post::Bonds))?;
    router.insert("/day/open", Route::Post(Post::DayOpen))?;
    router.insert("/day/close", Route::Post(Post::DayClose))?;
    router.insert("/redeem", Route::Post(Post::Redeem))?;
    Ok(())
}

/// Adds the routes of queries.
fn add_gets(router: &mut Router<Route>) -> Result<(), InsertError>
    ensures { router.old ≡ posts → OnOk result (router.new ≡ routes) }
{
    router.insert("/inventory/{customer}/{month}", Route::Get(Get::Inventory))?;
    router.insert("/ticket/{n}", Route::Get(Get::Ticket))?;
    router.insert("/batch/{day}", Route::Get(Get::Batch))?;
    router.insert("/value/{denom}/{issued}/{month}", Route::Get(Get::Value))?;
    Ok(())
}

/// Makes the router.
fn router(alloc: Global) -> Result<Router<Route>, InsertError>
    ensures { IfOk result (λ r. r ≡ routes) }
{
    let mut router = Router::new(alloc);
    add_posts(&mut router)?;
    add_gets(&mut router)?;
    Ok(router)
}
