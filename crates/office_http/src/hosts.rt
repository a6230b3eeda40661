//! A service that is known by some hosts alone.
ghost use Rattle.std.specs.Prelude.{◌≡◌, Some, IfOk, map};
ghost use Rattle.office_core.specs.Preserves.{Preserves};
ghost use Rattle.office_mail.specs.Written.{Writes};
ghost use Rattle.office_http_requests.specs.Asked.{is_head_method};
ghost use Rattle.office_http_requests.specs.Hosts.{IsForOther};
ghost use Rattle.office_http_requests.specs.Reply.{refused, reply_bytes};
ghost use Rattle.office_http_requests.specs.Routes.{office_routes};
ghost use Rattle.office_http.specs.Serve.{ServesOne, StopsOne};

use crate::serve::{ServeFault, Served, serve_with_routes};
use office_core::Office;
use office_http_requests::routes::Routes;
use office_http_requests::{Answer, Refusal, method_for_other, write_answer};
use office_mail::{Feed, Setup, Sink};
use office_store_keeper::Keeper;

/// Refuses a request for another host.
fn refuse_host<W: Sink>(setup: &Setup, is_head: bool, writer: &mut W) -> Result<Served, ServeFault>
    ensures code { IfOk result (λ served. served.code ≡ Some 403) }
    ensures writes { Writes W.Sink writer.old writer.new (reply_bytes (refused Refusal.OtherHost) is_head) result }
{
    let code = write_answer(setup, &Answer::Refused(Refusal::OtherHost), is_head, writer)?;
    Ok(Served { code: Some(code) })
}

/// Serves a request, of which these bytes have come, for a service that is known by these hosts. If the request is for
/// another host, it is refused, and nothing is done. Any other is served, as each is if no host is given.
pub fn serve_as_hosts<K: Keeper, R: Feed, W: Sink>(
    office: &mut Office<K>,
    table: &Routes,
    hosts: &[&str],
    request: &[u8],
    reader: &mut R,
    writer: &mut W,
) -> Result<Served, ServeFault>
    requires { table.now ≡ office_routes }
    ensures carries { Preserves K.Keeper office.old office.new }
    ensures still { IsForOther (map (λ host. host.now) hosts.now) request.now → office.new ≡ office.old }
    ensures unread { IsForOther (map (λ host. host.now) hosts.now) request.now → reader.new ≡ reader.old }
    ensures refused { (other : IsForOther (map (λ host. host.now) hosts.now) request.now) → Writes W.Sink writer.old writer.new (reply_bytes (refused Refusal.OtherHost) (is_head_method other.head)) result }
    ensures ok { ¬ (IsForOther (map (λ host. host.now) hosts.now) request.now) → ServesOne K.Keeper R.Feed W.Sink office.old office.new reader.old reader.new writer.old writer.new result }
    ensures err { ¬ (IsForOther (map (λ host. host.now) hosts.now) request.now) → StopsOne K.Keeper R.Feed W.Sink office.old office.new reader.old reader.new writer.old writer.new result }
{
    match method_for_other(hosts, request) {
        Some(is_head) => refuse_host(office.setup(), is_head, writer),
        None => serve_with_routes(office, table, reader, writer),
    }
}
