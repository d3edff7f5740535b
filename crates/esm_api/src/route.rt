// Routing a path.
ghost use Rattle.std.specs.Prelude.{◌≡◌, IfOk, OnOk};
ghost use Rattle.matchit.specs.Route.{parse_route};
ghost use Rattle.esm_api.specs.Plan.{route_of};
ghost use Rattle.esm_api.specs.Routes.{routes, Inserts};

use esm_model::OutOfMemory;
use matchit::Router;
use std::alloc::Global;

/// What a path names (Lambda API Reference of 2015-03-31, event source mappings).
#[derive(Clone, Copy, Drop)]
pub enum Route {
    /// All mappings.
    Mappings,
    /// The mapping that its last part names.
    Mapping,
}

/// Returns what the path names, or `None` where it has none of the forms.
pub fn route_of(alloc: Global, path: &str) -> Result<Option<Route>, OutOfMemory>
    ensures { IfOk result (λ route. route ≡ route_of path.now) }
{
    let router = router(alloc)?;
    Ok(at(&router, path))
}

/// The route of the path in this router.
fn at(router: &Router<Route>, path: &str) -> Option<Route>
    requires { router.now ≡ routes }
    ensures { result ≡ route_of path.now }
{
    match router.at(path) {
        Ok(found) => Some(*found.value),
        Err(_) => None,
    }
}

/// The router with the three forms of paths.
fn router(alloc: Global) -> Result<Router<Route>, OutOfMemory>
    ensures { IfOk result (λ router. router ≡ routes) }
{
    let mut router = Router::new(alloc);
    add(
        &mut router,
        "/2015-03-31/event-source-mappings",
        Route::Mappings,
    )?;
    add(
        &mut router,
        "/2015-03-31/event-source-mappings/",
        Route::Mappings,
    )?;
    add(
        &mut router,
        "/2015-03-31/event-source-mappings/{uuid}",
        Route::Mapping,
    )?;
    Ok(router)
}

/// Adds a form to the router. No two forms conflict, so an insert fails only if memory runs out.
fn add(router: &mut Router<Route>, form: &str, route: Route) -> Result<(), OutOfMemory>
    ensures { OnOk result (Inserts (parse_route form.now) route router.old router.new) }
{
    match router.insert(form, route) {
        Ok(()) => Ok(()),
        Err(_) => Err(OutOfMemory),
    }
}
