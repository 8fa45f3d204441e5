//! Requests and replies.
use json_tree::{Seq, Text};

/// A request, as a handler sees it.
#[derive(Debug, Drop)]
pub struct Request {
    /// Its method, as `GET`.
    pub method: Text,
    /// Its target, as it stands in the request line.
    pub target: Text,
    /// Its body, at most 65,536 bytes.
    pub body: Seq<u8>,
}

/// A request of a stream.
#[derive(Debug, Drop)]
pub struct Asked {
    /// The request.
    pub request: Request,
    /// Whether it asks that the connection closes: by HTTP/1.0, or by `close` in a `Connection` field.
    pub closes: bool,
}

/// The methods that the field `Allow` of a reply names, in this order.
#[derive(Clone, Copy, Debug, PartialEq, Eq)]
pub enum Allow {
    /// There is no such field.
    None,
    /// `GET`.
    Get,
    /// `GET` and `POST`.
    GetPost,
    /// `GET` and `DELETE`.
    GetDelete,
    /// `GET`, `PUT`, `PATCH` and `DELETE`.
    GetPutPatchDelete,
    /// `POST`.
    Post,
}

/// A reply of a handler.
#[derive(Debug, Drop)]
pub struct Reply {
    /// The status code: one of 200, 201, 400, 404, 405, 409, 413, 422, 431 and 501.
    pub code: u16,
    /// The methods of the resource, exactly in a reply of code 405.
    pub allow: Allow,
    /// The body, of type `application/json`.
    pub body: Seq<u8>,
}
