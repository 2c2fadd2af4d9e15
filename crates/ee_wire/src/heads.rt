//! The head of a response.
ghost use Rattle.std.specs.Prelude.{◌≡◌, ◌++◌, IfOk, OnOk};
ghost use Rattle.ee_wire.specs.Heads.{line, status_line, kind_line, closing_line, head_text};

use crate::answers::{Kind, Status};
use std::alloc::{AllocError, Global};

fn status_line(status: Status) -> &'static str
    ensures { result.now ≡ status_line status }
{
    match status {
        Status::Ok => "HTTP/1.1 200 OK",
        Status::BadRequest => "HTTP/1.1 400 Bad Request",
        Status::NotFound => "HTTP/1.1 404 Not Found",
        Status::MethodNotAllowed => "HTTP/1.1 405 Method Not Allowed",
        Status::Conflict => "HTTP/1.1 409 Conflict",
        Status::ContentTooLarge => "HTTP/1.1 413 Content Too Large",
        Status::ServiceUnavailable => "HTTP/1.1 503 Service Unavailable",
    }
}

fn kind_line(kind: Kind) -> &'static str
    ensures { result.now ≡ kind_line kind }
{
    match kind {
        Kind::Json => "Content-Type: application/json",
        Kind::Text => "Content-Type: text/plain",
    }
}

/// Appends a line, followed by CR LF.
#[tactic(auto, unfolding(crate::specs::Heads::line))]
fn push_line(out: &mut Vec<u8>, text: &str) -> Result<(), AllocError>
    ensures { OnOk result (out.new.items ≡ out.old.items ++ line text.now) }
{
    out.extend_from_slice(text.as_bytes())?;
    out.extend_from_slice(b"\r\n")
}

/// Appends the line which says that the connection ends, if it does.
fn push_closing(out: &mut Vec<u8>, closing: bool) -> Result<(), AllocError>
    ensures { OnOk result (out.new.items ≡ out.old.items ++ closing_line closing) }
{
    if closing {
        push_line(out, "Connection: close")?;
    }
    Ok(())
}

/// The head of a response whose body has `length` bytes.
pub fn head_text(
    alloc: Global,
    status: Status,
    kind: Kind,
    length: usize,
    closing: bool,
) -> Result<Vec<u8>, AllocError>
    ensures { IfOk result (λ v. v.items ≡ head_text status kind length closing) }
{
    let mut text = Vec::new(alloc);
    push_line(&mut text, status_line(status))?;
    push_line(&mut text, kind_line(kind))?;
    push_line(
        &mut text,
        format!(in alloc; "Content-Length: {length}")?.as_str(),
    )?;
    push_closing(&mut text, closing)?;
    push_line(&mut text, "")?;
    Ok(text)
}
