//! The paths, and what stands at each.
ghost use Rattle.std.specs.Prelude.{◌≡◌, true, OnOk, IfOk};
ghost use Rattle.am_http.specs.Paths.{below, endpoint_of, path_at, silence_root, takes};
ghost use Rattle.am_http.specs.Routes.{has_room, with_route};

use crate::request::{Endpoint, Method};
use am_text::Text;
use matchit::{InsertError, Router};
use std::alloc::{AllocError, Global};
use std::marker::Model;

/// The path at which the program says whether it is ready.
pub(crate) const READY: &str = "/ready";

// What precedes the identifier in the path of one silence.
const SILENCE_ROOT: &str = "/alertmanager/api/v2/silence/";

/// What stands at a path.
#[derive(Clone, Copy)]
pub(crate) enum Path {
    Alerts,
    AlertGroups,
    Silences,
    Silence,
    Receivers,
    Configuration,
}

impl Path {
    /// Whether it takes this method.
    pub fn takes(self, method: Method) -> bool
        ensures { result ≡ takes self method }
    {
        match self {
            Path::Alerts | Path::Silences => method != Method::Delete,
            Path::Silence => method != Method::Post,
            Path::AlertGroups | Path::Receivers => method == Method::Get,
            Path::Configuration => true,
        }
    }

    /// The endpoint, where it stands at this path.
    pub fn endpoint(self, alloc: Global, path: &str) -> Result<Endpoint, AllocError>
        ensures { IfOk result (λ endpoint. endpoint ≡ endpoint_of self path.now) }
    {
        Ok(match self {
            Path::Alerts => Endpoint::Alerts,
            Path::AlertGroups => Endpoint::AlertGroups,
            Path::Silences => Endpoint::Silences,
            Path::Silence => Endpoint::Silence(Text::read(alloc, silence_id(path))?),
            Path::Receivers => Endpoint::Receivers,
            Path::Configuration => Endpoint::Configuration,
        })
    }
}

// The identifier in the path of one silence.
fn silence_id(path: &str) -> &str
    ensures { result.now ≡ below silence_root path.now }
{
    match path.strip_prefix(SILENCE_ROOT) {
        Some(id) => id,
        None => "",
    }
}

/// The paths of all requests. A contract sees the router's routes.
#[derive(Drop)]
pub(crate) struct Paths {
    router: Router<Path>,
}

impl Model for Paths {
    ghost use Rattle.am_http.specs.declared.paths.Path.{Path};
    ghost use Rattle.am_http.specs.Paths.{HasPaths};
    ghost use Rattle.matchit.specs.Rows.{RowsOf};
    ghost use Rattle.matchit.specs.Router.{RouteOf};

    ghost Value = { RowsOf (RouteOf Path) };

    ghost view = { λ paths. paths.router };

    ghost invariant = { λ paths. HasPaths paths.router };
}

// Adds a route to a router that has none like it.
fn add(router: &mut Router<Path>, route: &str, path: Path) -> Result<(), AllocError>
    requires { has_room route.now router.old ≡ true }
    ensures { OnOk result (router.new ≡ with_route route.now path router.old) }
{
    match router.insert(route, path) {
        Ok(()) => Ok(()),
        Err(error) => {
            prove!(matches!(&error, InsertError::OutOfMemory));
            Err(AllocError)
        }
    }
}

impl Paths {
    /// The table of paths. Fails only where memory is refused.
    pub fn new(alloc: Global) -> Result<Paths, AllocError> {
        let mut router = Router::new(alloc);
        add(
            &mut router,
            "/alertmanager/api/v2/alerts/groups",
            Path::AlertGroups,
        )?;
        add(&mut router, "/alertmanager/api/v2/alerts", Path::Alerts)?;
        add(
            &mut router,
            "/alertmanager/api/v2/receivers",
            Path::Receivers,
        )?;
        add(
            &mut router,
            "/alertmanager/api/v2/silence/{id}",
            Path::Silence,
        )?;
        add(&mut router, "/alertmanager/api/v2/silences", Path::Silences)?;
        add(&mut router, "/api/v1/alerts", Path::Configuration)?;
        Ok(Paths { router })
    }

    /// What stands at a path.
    pub fn find(&self, path: &str) -> Option<Path>
        ensures { result ≡ path_at path.now }
    {
        match self.router.at(path) {
            Ok(found) => Some(*found.value),
            Err(_) => None,
        }
    }
}
