//! What a message asks for.
ghost use Rattle.std.specs.Prelude.{◌≡◌};
ghost use Rattle.ee_wire_calls.specs.Calls.{decoded, posted, asked, routed, called, json_of, IsUnlessMemory};

use crate::bodies::request_in;
use crate::calls::Call;
use crate::faults::WireFault;
use crate::paths::query_in;
use crate::routes::{Get, Post, Route, Routes};
use serde_json::Value;
use std::alloc::Global;

fn posted(alloc: Global, post: Post, body: &[u8]) -> Result<Call, WireFault>
    ensures { IsUnlessMemory result (posted post (json_of body.now)) }
{
    match Value::from_slice(alloc, body) {
        Ok(value) => Ok(Call::Request(request_in(alloc, post, &value)?)),
        Err(e) if e.is_memory() => Err(WireFault::NoMemory),
        Err(_) => Err(WireFault::BadJson),
    }
}

fn asked(get: Get, path: &str) -> Result<Call, WireFault>
    ensures { result ≡ asked get path.now }
{
    match query_in(get, path) {
        Ok(query) => Ok(Call::Query(query)),
        Err(field) => Err(WireFault::BadField(field)),
    }
}

fn routed(routes: &Routes, path: &str) -> Result<Route, WireFault>
    ensures { result ≡ routed path.now }
{
    routes.of(path).ok_or(WireFault::NoRoute)
}

fn called(
    alloc: Global,
    route: Route,
    path: &str,
    method: &[u8],
    body: &[u8],
) -> Result<Call, WireFault>
    ensures { IsUnlessMemory result (called route path.now method.now body.now) }
{
    match route {
        Route::Post(post) if method == b"POST".as_slice() => posted(alloc, post, body),
        Route::Get(get) if method == b"GET".as_slice() => asked(get, path),
        _ => Err(WireFault::BadMethod),
    }
}

/// What a message asks for, given the routes, which were made before.
#[tactic(auto, unfolding(crate::specs::Calls::decoded))]
pub fn decode_with(
    alloc: Global,
    routes: &Routes,
    path: &[u8],
    method: &[u8],
    body: &[u8],
) -> Result<Call, WireFault>
    ensures { IsUnlessMemory result (decoded path.now method.now body.now) }
{
    let Ok(path) = std::str::from_utf8(path) else {
        return Err(WireFault::NoRoute);
    };
    let route = routed(routes, path)?;
    called(alloc, route, path, method, body)
}

/// What a message asks for; makes the routes for this message alone.
pub fn decode(alloc: Global, path: &[u8], method: &[u8], body: &[u8]) -> Result<Call, WireFault>
    ensures { IsUnlessMemory result (decoded path.now method.now body.now) }
{
    match Routes::new(alloc) {
        Ok(routes) => decode_with(alloc, &routes, path, method, body),
        Err(_) => Err(WireFault::NoMemory),
    }
}
