//! The service: which requests are let in, and what answers them.
ghost use Rattle.std.specs.Prelude.{◌≡◌, ◌≢◌, IfOk, IsTrue};
ghost use Rattle.http_header.specs.FieldValue.{is_visible_text};
ghost use Rattle.oca_web.specs.Sites.{last_moment_for};

use crate::admission::{Key, Terms, admit};
use crate::answers::{MOST_RANGES, PlaceRange, ValuesQuery, tickets_json, tree_json, values_json};
use crate::body::{OrderBody, Refusal, orders_in};
use crate::order::ORDER_MS;
use crate::page::{PAGE, POLICY};
use crate::view::View;
use arrayvec::ArrayVec;
use bytes::{BufMut, Bytes};
use http::{HeaderName, HeaderValue, Request, StatusCode, header};
use http_server::{Response, Service};
use itoa::Buffer;
use std::alloc::{AllocError, Global};

/// The answer to a request without the token.
const WHERE_TO_GO: &str = "open the address that ocapanel printed\n";

/// The answer to an order if the panel only shows values.
const READ_ONLY: &str = "{\"read_only\":true}";

/// The HTTP service over a view, by the rules of the panel. A connection of `http_server` calls it for each request.
#[derive(Drop)]
pub struct Site {
    alloc: Global,
    view: View,
    terms: Terms,
    calls: u64,
    admitted: u64,
    doubts: bool,
}

impl Site {
    ghost use Rattle.std.specs.Prelude.{◌≡◌, ◌≢◌, IfOk};
    ghost use Rattle.std.specs.Borrow.{sem};
    ghost use Rattle.oca_web.specs.Lending.{LendsView};
    ghost use Rattle.oca_web.specs.Sites.{AnswersOrFails, KeepsOrders, Posts, TakesOrders};

    /// Returns a service that answers HTTP requests from this view, by the rules `terms`. The service takes memory from
    /// `alloc` for its answers.
    pub fn new(alloc: Global, view: View, terms: Terms) -> Site
        ensures view { result.view ≡ view }
        ensures terms { result.terms ≡ terms }
    {
        Site {
            alloc,
            view,
            terms,
            calls: 0,
            admitted: 0,
            doubts: false,
        }
    }

    /// Returns the view of the service, so that the program can change it.
    pub fn view(&mut self) -> &mut View
        ensures* writes_back { sem 𝓛 (LendsView self.entry result) }
        ensures value { result.now ≡ self.old.view }
    {
        &mut self.view
    }

    /// Sets whether the next requests may have waited while the program was suspended. If `doubts` is true, orders of
    /// requests that give no last moment end as not sent. At first it is false.
    pub fn doubt(&mut self, doubts: bool)
        ensures { self.new ≡ record self.old { doubts = doubts } }
    {
        self.doubts = doubts;
    }

    /// Returns the number of HTTP requests that were answered since the service was made, refused ones included.
    pub fn calls(&self) -> u64 {
        self.calls
    }

    /// Returns the number of HTTP requests that were let in since the service was made. A request that was let in can
    /// still be answered with an error.
    pub fn admitted(&self) -> u64 {
        self.admitted
    }

    /// Answers a request, and returns the status. A request that is not let in is refused; without the token it is told
    /// where to go.
    fn respond(
        &mut self,
        request: &Request<Bytes>,
        response: &mut Response,
    ) -> Result<StatusCode, AllocError>
        ensures { AnswersOrFails result self.old request.now self.new }
    {
        protect(response)?;
        if let Err(status) = admit(&self.terms, request) {
            if status == StatusCode::UNAUTHORIZED {
                put_field(response, header::CONTENT_TYPE, "text/plain; charset=utf-8")?;
                response.body.put_slice(WHERE_TO_GO.as_bytes())?;
            }
            return Ok(status);
        }
        self.admitted = self.admitted.saturating_add(1);
        let path = request.uri().path();
        if request.method().as_str() == "POST" {
            return self.post(path, request.body().as_slice(), response);
        }
        self.get(path, request, response)
    }

    /// Answers a request of any method but POST.
    fn get(
        &mut self,
        path: &str,
        request: &Request<Bytes>,
        response: &mut Response,
    ) -> Result<StatusCode, AllocError>
        ensures { KeepsOrders result self.old self.new }
    {
        let method = request.method().as_str();
        let reads = method == "GET" || method == "HEAD";
        match path {
            "/" if reads => self.get_page(response),
            "/tree" if reads => {
                let text = tree_json(self.alloc, &self.view, &self.terms)?;
                put_json(StatusCode::OK, text.as_slice(), response)
            }
            "/values" if reads => self.get_values(request.uri().query(), response),
            "/" | "/tree" | "/values" => forbid_method("GET, HEAD", response),
            "/orders" => forbid_method("POST", response),
            _ if reads => Ok(StatusCode::NOT_FOUND),
            _ => forbid_method("GET, HEAD", response),
        }
    }

    /// Answers with the page, and with the token as a cookie, if there is one. Scripts can't read it, and a browser sends
    /// it only with requests that a page of the same host makes (the port does not count).
    fn get_page(&self, response: &mut Response) -> Result<StatusCode, AllocError>
        ensures { IfOk result (λ status. status ≡ 200) }
    {
        if let Some(key) = self.terms.key.as_ref() {
            let cookie = key.cookie.as_str();
            let text = format!(in self.alloc; "{cookie}; HttpOnly; SameSite=Strict; Path=/")?;
            let value = HeaderValue::from_string(text).map_err(|_| AllocError)?;
            response.add_header(header::SET_COOKIE, value)?;
        }
        put_field(response, header::CONTENT_TYPE, "text/html; charset=utf-8")?;
        put_field(response, header::CONTENT_SECURITY_POLICY, POLICY)?;
        response.body.push(Bytes::from_static(PAGE.as_bytes()))?;
        Ok(StatusCode::OK)
    }

    /// Answers with what changed since the page asked last, and with all if it asked another run of the program.
    fn get_values(
        &mut self,
        query: Option<&str>,
        response: &mut Response,
    ) -> Result<StatusCode, AllocError>
        ensures orders { self.new.view.orders ≡ self.old.view.orders }
        ensures terms { self.new.terms ≡ self.old.terms }
        ensures status { IfOk result (λ status. status ≡ 200) }
    {
        let ranges = ranges_in(query);
        for range in ranges.as_slice() {
            self.view.open(range.first, range.count);
        }
        let mut digits = Buffer::new();
        let own = digits.format(self.terms.run);
        let known = match text_in(query, "run") {
            Some(run) if run != own => None,
            _ => query,
        };
        let wanted = ValuesQuery {
            ranges: ranges.as_slice(),
            since: number_in(known, "since"),
            ticket: number_in(known, "told"),
        };
        let text = values_json(self.alloc, &self.view, &self.terms, &wanted)?;
        put_json(StatusCode::OK, text.as_slice(), response)
    }

    /// Answers a POST.
    fn post(
        &mut self,
        path: &str,
        body: &[u8],
        response: &mut Response,
    ) -> Result<StatusCode, AllocError>
        ensures { Posts path.now body.now result self.old self.new }
    {
        if self.terms.read_only {
            return put_json(StatusCode::FORBIDDEN, READ_ONLY.as_bytes(), response);
        }
        match path {
            "/orders" => match orders_in(self.alloc, &self.view, self.terms.run, body) {
                Ok(body) => self.order(&body, response),
                Err(refusal) => put_refusal(self.alloc, refusal, response),
            },
            "/" | "/tree" | "/values" => forbid_method("GET, HEAD", response),
            _ => Ok(StatusCode::NOT_FOUND),
        }
    }

    /// Adds the orders of a body, and answers with their tickets. If memory is refused, none is added.
    fn order(&mut self, body: &OrderBody, response: &mut Response) -> Result<StatusCode, AllocError>
        ensures { TakesOrders result body.now.orders.items body.now.before self.old self.new }
    {
        let orders = body.orders.as_slice();
        if !self.view.orders().has_room(orders.len()) {
            return Ok(StatusCode::SERVICE_UNAVAILABLE);
        }
        let text = tickets_json(self.alloc, self.view.next_ticket(), orders.len())?;
        let _ = put_json(StatusCode::ACCEPTED, text.as_slice(), response)?;
        let last = last_moment(self.view.moment(), body.before, self.doubts);
        match self.view.order_all(orders, last) {
            Some(_) => Ok(StatusCode::ACCEPTED),
            None => Ok(StatusCode::SERVICE_UNAVAILABLE),
        }
    }
}

impl Service for Site {
    ghost use Rattle.oca_web.specs.Sites.{Answers};

    ghost answers = { Answers };

    /// Answers an HTTP request into `response`. If memory is refused, the answer is 503 without a body. The call itself
    /// refuses nothing.
    fn call(
        &mut self,
        request: &Request<Bytes>,
        response: &mut Response,
    ) -> Result<(), AllocError> {
        self.calls = self.calls.saturating_add(1);
        match self.respond(request, response) {
            Ok(status) => response.status = status,
            Err(_) => {
                response.clear();
                response.status = StatusCode::SERVICE_UNAVAILABLE;
            }
        }
        Ok(())
    }
}

/// The last moment at which an order may be submitted whose request is read at `now` and gives the moment `before`.
/// `doubts` says that the request may have waited while the program was suspended.
fn last_moment(now: u64, before: Option<u64>, doubts: bool) -> u64
    ensures { result ≡ last_moment_for now before doubts }
{
    let latest = now.saturating_add(ORDER_MS);
    match before {
        Some(moment) => moment.min(latest),
        None if doubts => 0,
        None => latest,
    }
}

/// Adds the header fields of every answer: not to cache it, not to guess its type, and to give it to no other page.
fn protect(response: &mut Response) -> Result<(), AllocError> {
    put_field(response, header::CACHE_CONTROL, "no-store")?;
    put_field(response, header::X_CONTENT_TYPE_OPTIONS, "nosniff")?;
    put_field(response, header::X_FRAME_OPTIONS, "DENY")?;
    put_field(response, header::REFERRER_POLICY, "no-referrer")?;
    let policy = HeaderName::from_static("cross-origin-resource-policy");
    put_field(response, policy, "same-origin")
}

/// Adds a header field.
fn put_field(
    response: &mut Response,
    name: HeaderName,
    value: &'static str,
) -> Result<(), AllocError>
    requires { IsTrue (is_visible_text value.now) }
{
    response.add_header(name, HeaderValue::from_static(value))
}

/// Refuses a method with 405, and lists the allowed ones.
fn forbid_method(allowed: &'static str, response: &mut Response) -> Result<StatusCode, AllocError>
    requires { IsTrue (is_visible_text allowed.now) }
    ensures { IfOk result (λ status. status ≡ 405) }
{
    put_field(response, header::ALLOW, allowed)?;
    Ok(StatusCode::METHOD_NOT_ALLOWED)
}

/// The text of a query's parameter with this name.
fn text_in<'a>(query: Option<&'a str>, name: &str) -> Option<&'a str> {
    for part in query?.split('&') {
        if let Some((key, text)) = part.split_once('=')
            && key == name
        {
            return Some(text);
        }
    }
    None
}

/// The number of a query's parameter with this name, and 0 if it has none.
fn number_in(query: Option<&str>, name: &str) -> u64 {
    text_in(query, name).map_or(0, |digits| digits.parse::<u64>().unwrap_or(0))
}

/// The ranges of objects that a page shows by its query: at most eight in `shown`, such as `0-12,40-8` (each the first
/// place and the number of objects), or one in `first` and `count`.
fn ranges_in(query: Option<&str>) -> ArrayVec<PlaceRange, MOST_RANGES> {
    let mut ranges = ArrayVec::new();
    let Some(shown) = text_in(query, "shown") else {
        let first = place_in(text_in(query, "first").unwrap_or(""));
        let count = place_in(text_in(query, "count").unwrap_or(""));
        let _ = ranges.try_push(PlaceRange { first, count });
        return ranges;
    };
    for range in shown.split(',') {
        let (first, count) = range.split_once('-').unwrap_or(("", ""));
        let _ = ranges.try_push(PlaceRange {
            first: place_in(first),
            count: place_in(count),
        });
    }
    ranges
}

/// A number of at most 65,535, and 0 if it is no number.
fn place_in(digits: &str) -> usize {
    digits.parse::<u64>().unwrap_or(0).min(65_535) as usize
}

/// Refuses orders, with the index of the one that is the reason, if it is one.
fn put_refusal(
    alloc: Global,
    refusal: Refusal,
    response: &mut Response,
) -> Result<StatusCode, AllocError>
    ensures { IfOk result (λ status. status ≢ 202) }
{
    let status = refusal.fault.status();
    let Some(at) = refusal.at else {
        return Ok(status);
    };
    let text = format!(in alloc; "{{\"at\":{at}}}")?;
    put_json(status, text.as_str().as_bytes(), response)
}

/// Answers with this status and JSON.
fn put_json(
    status: StatusCode,
    text: &[u8],
    response: &mut Response,
) -> Result<StatusCode, AllocError>
    ensures { IfOk result (λ answered. answered ≡ status) }
{
    put_field(response, header::CONTENT_TYPE, "application/json")?;
    response.body.put_slice(text)?;
    Ok(status)
}
