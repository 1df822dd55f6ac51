//! The server that requests go to. Here it is a table.
use cacache::{Result, Value};
use serde_json::json;
use std::alloc::Global;

/// A response.
#[derive(Drop)]
pub(crate) struct Response {
    pub(crate) headers: Value,
    pub(crate) body: &'static str,
}

/// What the server has at a path.
#[derive(Clone, Copy)]
struct Page {
    kind: &'static str,
    control: &'static str,
    body: &'static str,
}

/// The page at this path.
fn page_at(path: &str) -> Page {
    let (kind, control, body) = match path {
        "/news" => ("text/html", "max-age=60", "<h1>News</h1>"),
        "/logo" => ("image/svg+xml", "max-age=3600", "<svg/>"),
        "/icon" => ("image/svg+xml", "max-age=60", "<svg/>"),
        _ => ("text/plain", "no-store", "12:00"),
    };
    Page {
        kind,
        control,
        body,
    }
}

/// The response to a request for this path.
pub(crate) fn ask(alloc: Global, path: &str) -> Result<Response> {
    let page = page_at(path);
    let headers = json!(in alloc; {"content-type": page.kind, "cache-control": page.control})?;
    Ok(Response {
        headers,
        body: page.body,
    })
}
