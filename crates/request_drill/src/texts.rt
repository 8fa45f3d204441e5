//! Targets and bodies of the requests of a stream. The bodies are compact JSON with its names in order of bytes.
ghost use Rattle.std.specs.Prelude.{◌≡◌, ◌++◌, OnOk, OnErr, IfOk};
ghost use Rattle.request_drill.specs.Generated as spec;

use itoa::Buffer;
use std::alloc::{AllocError, Global};

/// Writes a number in decimal behind what was written.
pub(crate) fn put_number(text: &mut Vec<u8>, number: u64) -> Result<(), AllocError>
    ensures ok { OnOk result (text.new.items ≡ text.old.items ++ spec.decimal number) }
    ensures err { OnErr result (text.new.items ≡ text.old.items) }
{
    let mut digits = Buffer::new();
    text.extend_from_slice(digits.format(number).as_bytes())
}

/// Writes the name of the Service of a place.
pub(crate) fn put_name(text: &mut Vec<u8>, place: u64) -> Result<(), AllocError>
    ensures { OnOk result (text.new.items ≡ text.old.items ++ spec.service_name place) }
{
    text.push(b's')?;
    put_number(text, place)
}

/// The path of the Services.
pub(crate) fn services() -> &'static [u8]
    ensures { result.now ≡ spec.services }
{
    b"/apis/serving.knative.dev/v1/namespaces/default/services"
}

/// The path of the Service of a place.
#[tactic(auto, unfolding(crate::specs::Generated::service_path))]
pub(crate) fn service_path(alloc: Global, place: u64) -> Result<Vec<u8>, AllocError>
    ensures { IfOk result (λ path. path.items ≡ spec.service_path place) }
{
    let mut path = Vec::from_slice(alloc, services())?;
    path.extend_from_slice(b"/")?;
    put_name(&mut path, place)?;
    Ok(path)
}

/// The manifest of the Service of a place.
#[tactic(auto, unfolding(crate::specs::Generated::service_body))]
pub(crate) fn service_body(alloc: Global, place: u64, number: u64) -> Result<Vec<u8>, AllocError>
    ensures { IfOk result (λ body. body.items ≡ spec.service_body place number) }
{
    let mut body = Vec::from_slice(
        alloc,
        b"{\"apiVersion\":\"serving.knative.dev/v1\",\"kind\":\"Service\",\"metadata\":{\"name\":\"",
    )?;
    put_name(&mut body, place)?;
    body.extend_from_slice(
        b"\"},\"spec\":{\"template\":{\"spec\":{\"containers\":[{\"image\":\"img-",
    )?;
    put_number(&mut body, number % 1000)?;
    body.extend_from_slice(b"\"}],\"timeoutSeconds\":")?;
    put_number(&mut body, number % 601)?;
    body.extend_from_slice(b"}}}}")?;
    Ok(body)
}

/// The report that the first Revision of the Service of a place is well in both parts.
#[tactic(auto, unfolding(crate::specs::Generated::report_body))]
pub(crate) fn report_body(alloc: Global, place: u64) -> Result<Vec<u8>, AllocError>
    ensures { IfOk result (λ body. body.items ≡ spec.report_body place) }
{
    let mut body = Vec::from_slice(
        alloc,
        b"{\"containerHealthy\":{\"status\":\"True\"},\"resourcesAvailable\":{\"status\":\"True\"},\"revisionName\":\"",
    )?;
    put_name(&mut body, place)?;
    body.extend_from_slice(b"-00001\"}")?;
    Ok(body)
}
