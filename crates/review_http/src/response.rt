//! The bytes of responses.
ghost use Rattle.std.specs.Prelude.{◌≡◌, ◌++◌, ◌+◌, IfOk, OnOk, codes, decimal, length, string_bytes};
ghost use Rattle.http.specs.StatusCode.{IsStatusCode};
ghost use Rattle.serde_json.specs.{View.view, Written.compact_text};
ghost use Rattle.review_http.specs.Responses.{fault_data, status_line, allow_line, response_with, response, status_of};

use crate::status::{fault_name, status_of};
use http::StatusCode;
use review_http_requests::HttpFault;
use review_json::answer_text;
use review_words::Reply;
use serde_json::{Value, json};
use std::alloc::{AllocError, Global};

/// Room for what stands before and behind a text.
const HEAD_ROOM: usize = 256;

fn fault_value(alloc: Global, fault: HttpFault) -> Result<Value, AllocError>
    ensures { IfOk result (λ v. view v ≡ fault_data fault) }
{
    json!(in alloc; {"fault": fault_name(fault)})
}

fn fault_text(alloc: Global, fault: HttpFault) -> Result<String, AllocError>
    ensures { IfOk result (λ text. string_bytes text ≡ compact_text (fault_data fault)) }
{
    let value = fault_value(alloc, fault)?;
    value.to_string(alloc)
}

/// Puts the status with its phrase, as `http` writes it.
#[tactic(auto, unfolding(crate::specs::Responses::status_line))]
fn put_status(out: &mut Vec<u8>, alloc: Global, status: u16) -> Result<(), AllocError>
    requires { IsStatusCode status }
    ensures { OnOk result (out.new.items ≡ out.old.items ++ status_line status) }
{
    match StatusCode::from_u16(status) {
        Ok(code) => {
            let text = code.to_string(alloc)?;
            out.extend_from_slice(text.as_bytes())
        }
        Err(_) => unreachable!(),
    }
}

fn put_number(out: &mut Vec<u8>, alloc: Global, n: u64) -> Result<(), AllocError>
    ensures { OnOk result (out.new.items ≡ out.old.items ++ decimal n) }
{
    let text = n.to_string(alloc)?;
    out.extend_from_slice(text.as_bytes())
}

/// Puts the methods that a resource takes, where one was asked for that is none of them.
fn put_allow(out: &mut Vec<u8>, told: &Result<Reply, HttpFault>) -> Result<(), AllocError>
    ensures { OnOk result (out.new.items ≡ out.old.items ++ allow_line told.now) }
{
    if let Err(HttpFault::Method(methods)) = told {
        out.extend_from_slice(b"Allow: ")?;
        out.extend_from_slice(methods.text().as_bytes())?;
        out.extend_from_slice(b"\r\n")?;
    }
    Ok(())
}

#[tactic(auto, unfolding(crate::specs::Responses::response_with))]
fn response_with(
    alloc: Global,
    told: &Result<Reply, HttpFault>,
    text: &str,
) -> Result<Vec<u8>, AllocError>
    ensures { IfOk result (λ v. v.items ≡ response_with told.now text.now) }
{
    let mut out = Vec::with_capacity(alloc, text.len() + HEAD_ROOM)?;
    out.extend_from_slice(b"HTTP/1.1 ")?;
    put_status(&mut out, alloc, status_of(told))?;
    out.extend_from_slice(
        b"\r\nContent-Type: application/json; charset=UTF-8\r\nContent-Length: ",
    )?;
    put_number(&mut out, alloc, text.len() as u64 + 6)?;
    out.extend_from_slice(b"\r\n")?;
    put_allow(&mut out, told)?;
    out.extend_from_slice(b"Connection: close\r\n\r\n)]}'\n")?;
    out.extend_from_slice(text.as_bytes())?;
    out.extend_from_slice(b"\n")?;
    Ok(out)
}

/// The bytes of the response that tells a reply, or a fault of the request. It fails for want of memory alone.
#[tactic(auto, unfolding(crate::specs::Responses::response))]
pub fn response_of(alloc: Global, told: &Result<Reply, HttpFault>) -> Result<Vec<u8>, AllocError>
    ensures { IfOk result (λ v. v.items ≡ response told.now) }
{
    let text = match told {
        Ok(reply) => answer_text(alloc, reply)?,
        Err(fault) => fault_text(alloc, *fault)?,
    };
    response_with(alloc, told, text.as_str())
}
