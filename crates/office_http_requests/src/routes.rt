//! Where requests go.
ghost use Rattle.std.specs.Prelude.{◌≡◌, [], IfOk, OnOk};
ghost use Rattle.office_http_requests.specs.Routes.{office_routes, route_of, six_routes, ten_routes, twelve_routes};
ghost use Rattle.office_http_requests.specs.steps.Routes.{seventeen_routes};

use matchit::{InsertError, Router};
use std::alloc::Global;

/// What a path leads to.
#[derive(Clone, Copy, Debug, PartialEq, Eq)]
pub enum Route {
    Mail,
    /// The mail of one sender.
    MailOf,
    Lint,
    Settle,
    Try,
    /// A trial on a day.
    TryOn,
    Status,
    Testing,
    Excuses,
    Update,
    Waiting,
    Runs,
    Kept,
    Letter,
    Bag,
    Why,
    Order,
    Hints,
    Unstable,
    Propose,
    /// Proposals for a source, or for a day.
    ProposeFor,
    /// What a change breaks.
    Breaks,
    /// What the move of a source breaks.
    BreaksOf,
}

/// A table of routes.
pub type Routes = Router<Route>;

/// Puts the routes of mail and of what runs left into an empty table.
fn insert_first(router: &mut Router<Route>) -> Result<(), InsertError>
    requires { router.old ≡ [] }
    ensures { OnOk result (router.new ≡ six_routes) }
{
    router.insert("/mail", Route::Mail)?;
    router.insert("/settle", Route::Settle)?;
    router.insert("/status", Route::Status)?;
    router.insert("/testing", Route::Testing)?;
    router.insert("/excuses/{run}", Route::Excuses)?;
    router.insert("/update/{run}", Route::Update)?;
    Ok(())
}

/// Adds the routes of what is awaited, of runs and of kept mail.
fn insert_asking(router: &mut Router<Route>) -> Result<(), InsertError>
    requires { router.old ≡ six_routes }
    ensures { OnOk result (router.new ≡ ten_routes) }
{
    router.insert("/waiting", Route::Waiting)?;
    router.insert("/runs", Route::Runs)?;
    router.insert("/kept", Route::Kept)?;
    router.insert("/kept/{sender}/{number}", Route::Letter)?;
    Ok(())
}

/// Adds the routes of sources and of trials.
fn insert_trials(router: &mut Router<Route>) -> Result<(), InsertError>
    requires { router.old ≡ ten_routes }
    ensures { OnOk result (router.new ≡ twelve_routes) }
{
    router.insert("/why/{source}", Route::Why)?;
    router.insert("/try", Route::Try)?;
    Ok(())
}

/// Adds the routes of the mail of one sender, of texts that are only looked at, of parts of the kept mail, of the next
/// order and of a trial on a day.
fn insert_parts(router: &mut Router<Route>) -> Result<(), InsertError>
    requires { router.old ≡ twelve_routes }
    ensures { OnOk result (router.new ≡ seventeen_routes) }
{
    router.insert("/mail/{sender}", Route::MailOf)?;
    router.insert("/lint", Route::Lint)?;
    router.insert("/bag/{sender}/{from}", Route::Bag)?;
    router.insert("/order/{day}", Route::Order)?;
    router.insert("/try/{day}", Route::TryOn)?;
    Ok(())
}

/// Adds the routes of hints, of unstable, of proposals and of what changes break.
fn insert_hints(router: &mut Router<Route>) -> Result<(), InsertError>
    requires { router.old ≡ seventeen_routes }
    ensures { OnOk result (router.new ≡ office_routes) }
{
    router.insert("/hints", Route::Hints)?;
    router.insert("/unstable", Route::Unstable)?;
    router.insert("/propose", Route::Propose)?;
    router.insert("/propose/{source}", Route::ProposeFor)?;
    router.insert("/breaks", Route::Breaks)?;
    router.insert("/breaks/{source}", Route::BreaksOf)?;
    Ok(())
}

/// The table of routes.
pub fn routes(alloc: Global) -> Result<Router<Route>, InsertError>
    ensures { IfOk result (λ router. router ≡ office_routes) }
{
    let mut router = Router::new(alloc);
    insert_first(&mut router)?;
    insert_asking(&mut router)?;
    insert_trials(&mut router)?;
    insert_parts(&mut router)?;
    insert_hints(&mut router)?;
    Ok(router)
}

/// The route of a path, none if the path isn't in the table.
pub fn find_route(router: &Router<Route>, path: &str) -> Option<Route>
    requires { router.now ≡ office_routes }
    ensures { result ≡ route_of path.now }
{
    match router.at(path) {
        Ok(found) => Some(*found.value),
        Err(_) => None,
    }
}
