//! Answers requests by what is seen of a server.
ghost use Rattle.std.specs.Prelude.{◌≡◌, [], IfOk, OnOk};
ghost use Rattle.http_server.specs.Response.{IsBlank, IsResponse};
ghost use Rattle.lease_watch.specs.Requests.{status_of};
ghost use Rattle.lease_watch.specs.declared.seen.Seen.{Seen};
ghost use Rattle.lease_http.specs.Answers as spec;
ghost use Rattle.lease_http.specs.Answers.{ShowsBody, fields_for, looked, shown};

use crate::deadlines::Until;
use crate::listing::list;
use crate::views::View;
use bytes::{BufMut, Bytes};
use http::{HeaderValue, Request, StatusCode, header};
use http_server::{Response, Service};
use lease_watch::{Listed, Looks, Seen, Wanted, asked, list_text, metrics_text, page_text};
use std::alloc::{AllocError, Global};
use std::time::Clock;

/// What is told where a list is asked for otherwise.
const BAD_QUERY: &[u8] =
    b"ask for ?arena=NAME&from=UNIT&count=N or ?from=CLIENT&count=N, N from 1 to 1000\n";

/// What answers requests by a view. A contract sees the looks that it keeps, by which the page says
/// what was done lately.
#[derive(Drop)]
pub struct Showing<'a, V, C: Clock> {
    alloc: Global,
    pub view: &'a V,
    pub looks: Looks,
    until: &'a Until<'a, C>,
}

impl<'a, V: View, C: Clock> Showing<'a, V, C> {
    /// Answers by this view, after these looks, until then.
    pub fn new(
        alloc: Global,
        view: &'a V,
        looks: Looks,
        until: &'a Until<'a, C>,
    ) -> Showing<'a, V, C>
        ensures view { result.view.now ≡ view.entry.now }
        ensures looks { result.looks ≡ looks }
    {
        Showing {
            alloc,
            view,
            looks,
            until,
        }
    }

    /// What is seen, with what was done lately, and the looks after it.
    fn look(&self) -> Result<(Seen, Looks), AllocError>
        ensures { IfOk result (λ answer. (seen : Seen) × V.may_see self.now.view.now seen
            × (answer.1 ≡ looked self.now.looks seen) × (answer.0 ≡ shown answer.1 seen)) }
    {
        let mut seen = self.view.see(self.alloc)?;
        let mut looks = self.looks;
        seen.lately = looks.look(seen.work());
        Ok((seen, looks))
    }

    /// What is wanted of a server that has some arenas: of another nothing lies anywhere.
    fn known(&self, wanted: Wanted) -> Wanted
        ensures { result ≡ spec.known (V.knows self.now.view.now) wanted }
    {
        match wanted {
            Wanted::Leases(query) => {
                if self.lists(&query.of) {
                    Wanted::Leases(query)
                } else {
                    Wanted::NotFound
                }
            }
            other => other,
        }
    }

    /// Whether there is what is to be listed.
    fn lists(&self, of: &Listed) -> bool
        ensures { result ≡ spec.lists (V.knows self.now.view.now) of.now }
    {
        match of {
            Listed::Arena(name) => self.view.has_arena(name),
            Listed::Clients => true,
        }
    }

    /// The bytes of an answer, and the looks after it.
    fn body(&self, wanted: &Wanted, serves: bool) -> Result<(Vec<u8>, Looks), AllocError>
        ensures { IfOk result (λ answer. ShowsBody (V.may_see self.now.view.now)
            (V.may_count self.now.view.now) (V.may_have self.now.view.now) wanted.now serves
            self.now.looks answer.0.items answer.1) }
    {
        match wanted {
            Wanted::Page => {
                let (seen, looks) = self.look()?;
                Ok((page_text(self.alloc, &seen)?, looks))
            }
            Wanted::Metrics => {
                let (seen, looks) = self.look()?;
                Ok((metrics_text(self.alloc, &seen)?, looks))
            }
            Wanted::Leases(query) => {
                let rows = list(self.alloc, self.view, query, self.until)?;
                Ok((list_text(self.alloc, rows.as_slice())?, self.looks))
            }
            Wanted::Health | Wanted::BadQuery | Wanted::NotFound | Wanted::NotAllowed => {
                let mut body = Vec::new(self.alloc);
                body.extend_from_slice(plain_body(wanted, serves))?;
                Ok((body, self.looks))
            }
        }
    }
}

impl<V: View, C: Clock> Service for Showing<'_, V, C> {
    ghost use Rattle.std.specs.Prelude.{◌≡◌};
    ghost use Rattle.lease_http.specs.Answers.{Shows};

    ghost answers = { λ old request response new. (new.view ≡ old.view)
        × Shows (V.may_see old.view.now) (V.may_count old.view.now) (V.may_have old.view.now)
        (V.knows old.view.now) (V.may_serve old.view.now) old.looks request response new.looks };

    fn call(
        &mut self,
        request: &Request<Bytes>,
        response: &mut Response,
    ) -> Result<(), AllocError> {
        let wanted = self.known(wanted_by(request));
        let serves = self.view.serves();
        let (body, looks) = self.body(&wanted, serves)?;
        fill_head(response, &wanted, serves)?;
        response.body.put_slice(body.as_slice())?;
        self.looks = looks;
        Ok(())
    }
}

/// What a request asks for.
fn wanted_by(request: &Request<Bytes>) -> Wanted
    ensures { result ≡ spec.wanted_by request.now }
{
    let query = match request.uri().query() {
        Some(query) => query.as_bytes(),
        None => b"",
    };
    asked(
        request.method().as_str().as_bytes(),
        request.uri().path().as_bytes(),
        query,
    )
}

/// An answer that needs no look at the server.
fn plain_body(wanted: &Wanted, serves: bool) -> &'static [u8]
    ensures { result.now ≡ spec.plain_body wanted.now serves }
{
    match wanted {
        Wanted::Health => { if serves { b"ok\n" } else { b"stopping\n" } }
        Wanted::BadQuery => BAD_QUERY,
        Wanted::NotFound => b"not found\n",
        Wanted::NotAllowed => b"it can only be read\n",
        Wanted::Page | Wanted::Metrics | Wanted::Leases(_) => b"",
    }
}

/// The status and the fields of an answer.
fn fill_head(response: &mut Response, wanted: &Wanted, serves: bool) -> Result<(), AllocError>
    requires { IsBlank response.old }
    ensures { OnOk result
        (IsResponse (status_of wanted.now serves) (fields_for wanted.now) [] response.new) }
{
    match StatusCode::from_u16(wanted.status(serves)) {
        Ok(status) => response.status = status,
        Err(_) => unreachable!(),
    }
    response.add_header(header::CONTENT_TYPE, type_value(wanted))?;
    response.add_header(header::CONNECTION, HeaderValue::from_static("close"))?;
    response.add_header(header::CACHE_CONTROL, HeaderValue::from_static("no-store"))?;
    response.add_header(header::ALLOW, HeaderValue::from_static("GET, HEAD"))
}

/// The kind of the answer's bytes.
fn type_value(wanted: &Wanted) -> HeaderValue
    ensures { result.bytes ≡ spec.type_of wanted.now }
{
    match wanted {
        Wanted::Page => HeaderValue::from_static("text/html; charset=utf-8"),
        Wanted::Metrics => HeaderValue::from_static("text/plain; version=0.0.4; charset=utf-8"),
        Wanted::Leases(_) => HeaderValue::from_static("application/json"),
        Wanted::Health | Wanted::BadQuery | Wanted::NotFound | Wanted::NotAllowed => {
            HeaderValue::from_static("text/plain; charset=utf-8")
        }
    }
}
