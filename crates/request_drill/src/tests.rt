//! The bytes of a stream, and what a drill says, as worked by hand; and that calls succeed where memory is ample.
use crate::{DrillEnd, drill, generate, write_stream};
use api_server::World;
use serve_io::MemSink;
use std::alloc::Global;
use std::test::Fail;
use step_scheduler::standard_settings;

fn room(alloc: Global, failing: u64) -> Result<MemSink, Fail> {
    let mut calls = Vec::new(alloc);
    calls.push(failing)?;
    Ok(MemSink::new(alloc, 4096, 64, calls)?)
}

#[test]
fn generates(rt: HostRuntime) -> Result<(), Fail> {
    let alloc = rt.alloc();
    let text =
        b"POST /apis/serving.knative.dev/v1/namespaces/default/services HTTP/1.1\r\nHost: gen\r\nContent-Length: 168\r\n\r\n{\"apiVersion\":\"serving.knative.dev/v1\",\"kind\":\"Service\",\"metadata\":{\"name\":\"s1\"},\"spec\":{\"template\":{\"spec\":{\"containers\":[{\"image\":\"img-412\"}],\"timeoutSeconds\":325}}}}POST /control/settle HTTP/1.1\r\nHost: gen\r\nContent-Length: 0\r\n\r\nPOST /control/settle HTTP/1.1\r\nHost: gen\r\nContent-Length: 0\r\n\r\nPOST /control/clock HTTP/1.1\r\nHost: gen\r\nContent-Length: 14\r\n\r\n{\"now\":604800}POST /control/settle HTTP/1.1\r\nHost: gen\r\nContent-Length: 0\r\n\r\nGET /control/tables HTTP/1.1\r\nHost: gen\r\n\r\nGET /control/summary HTTP/1.1\r\nHost: gen\r\n\r\n";
    assert_eq!(rt; generate(alloc, 1)?.as_slice(), &text[..]);
    Ok(())
}

#[test]
fn writes_stream(rt: HostRuntime) -> Result<(), Fail> {
    let alloc = rt.alloc();
    let stream = generate(alloc, 2)?;
    let mut whole = room(alloc, 0)?;
    assert_eq!(rt; write_stream(alloc, 2, &mut whole), DrillEnd::Done);
    assert_eq!(rt; whole.bytes(), stream.as_slice());
    let mut cut = room(alloc, 3)?;
    assert_eq!(rt; write_stream(alloc, 2, &mut cut), DrillEnd::WriteFault);
    assert_eq!(rt; Some(cut.bytes()), stream.as_slice().get(..128));
    Ok(())
}

#[test]
fn drills(rt: HostRuntime) -> Result<(), Fail> {
    let alloc = rt.alloc();
    let mut first = room(alloc, 0)?;
    let mut second = room(alloc, 0)?;
    let settings = standard_settings(alloc)?;
    let mut world = World::new(alloc, settings);
    assert_eq!(rt; drill(alloc, &mut world, 1, &mut first), DrillEnd::Done);
    let lines = b"requests 7\nanswered 7\nrefused 0\njournal 8\ntables 0\nturns 6\nlooks 14\n";
    assert_eq!(rt; first.bytes(), &lines[..]);
    // Turns and looks are those of the call alone: each of three settles is now one turn, which looks at no key: none is touched.
    assert_eq!(rt; drill(alloc, &mut world, 1, &mut second), DrillEnd::Done);
    let lines = b"requests 7\nanswered 7\nrefused 1\njournal 8\ntables 0\nturns 3\nlooks 0\n";
    assert_eq!(rt; second.bytes(), &lines[..]);
    Ok(())
}
