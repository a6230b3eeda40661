//! What a path that names a source asks for.
ghost use Rattle.std.specs.Prelude.{◌≡◌, IfOk, drop};
ghost use Rattle.office_mail_setup.specs.Values.{package_in};
ghost use Rattle.office_http_requests.specs.Asked.{proposals_asked, source_asked};

use crate::days::day_behind;
use crate::reply::Refusal;
use crate::request::{Asked, Page, behind, tell_asked};
use deb_control::{Text, is_package_name};
use std::alloc::{AllocError, Global};

/// The name of a source after the beginning of a path (Debian Policy 5.6.1), none for any other text.
fn source_behind(alloc: Global, path: &str, front: usize) -> Result<Option<Text>, AllocError>
    ensures { IfOk result (λ source. source ≡ package_in (drop front path.now)) }
{
    let name = behind(path, front);
    if !is_package_name(name) {
        return Ok(None);
    }
    let Ok(source) = str::from_utf8(name) else {
        return Ok(None);
    };
    Ok(Some(Text::from_str(alloc, source)?))
}

/// What a path that ends with the name of a source to report on asks for. It fails only if memory runs out.
pub fn why_asked(alloc: Global, path: &str, method: &[u8]) -> Result<Asked, AllocError>
    ensures { IfOk result (λ asked. asked ≡ source_asked Page.Why (drop 5 path.now) method.now) }
{
    match source_behind(alloc, path, 5)? {
        Some(source) => Ok(tell_asked(Page::Why(source), method)),
        None => Ok(Asked::Refused(Refusal::NoRoute)),
    }
}

/// What a path that ends with the name of a source to move asks for. It fails only if memory runs out.
pub fn breaks_asked(alloc: Global, path: &str, method: &[u8]) -> Result<Asked, AllocError>
    ensures { IfOk result (λ asked. asked ≡ source_asked Page.Breaks (drop 8 path.now) method.now) }
{
    match source_behind(alloc, path, 8)? {
        Some(source) => Ok(tell_asked(Page::Breaks(source), method)),
        None => Ok(Asked::Refused(Refusal::NoRoute)),
    }
}

/// What a path that ends with the name of a source to free asks for. It fails only if memory runs out.
fn propose_for_asked(alloc: Global, path: &str, method: &[u8]) -> Result<Asked, AllocError>
    ensures { IfOk result (λ asked. asked ≡ source_asked Page.ProposeFor (drop 9 path.now) method.now) }
{
    match source_behind(alloc, path, 9)? {
        Some(source) => Ok(tell_asked(Page::ProposeFor(source), method)),
        None => Ok(Asked::Refused(Refusal::NoRoute)),
    }
}

/// What a path that ends with a day, or with the name of a source to free, asks for. It fails only if memory runs out.
pub fn propose_asked(alloc: Global, path: &str, method: &[u8]) -> Result<Asked, AllocError>
    ensures { IfOk result (λ asked. asked ≡ proposals_asked (drop 9 path.now) method.now) }
{
    match day_behind(path, 9) {
        Some(day) => Ok(tell_asked(Page::ProposeOn(day), method)),
        None => propose_for_asked(alloc, path, method),
    }
}
