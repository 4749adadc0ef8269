//! What a takeover writes, from the text of its script.

use fp_edge::MemSink;
use script_text::read_script;
use std::alloc::Global;
use std::process::Abort;
use std::test::Fail;
use takeover_text::write_takeover;
use text_output::Stop;

/// What is written of a script's takeover, to a sink whose calls with these numbers fail, and how it ended.
pub(super) fn written(
    rt: &impl Abort,
    alloc: Global,
    script: &[u8],
    failing: Vec<u32>,
) -> Result<(MemSink, Result<(), Stop>), Fail> {
    let mut sink = MemSink::new(alloc, 100_000, 1000, failing)?;
    let Ok(script) = read_script(alloc, script) else {
        assert!(rt; false, "the script has a faulty row");
        return Ok((sink, Ok(())));
    };
    let result = write_takeover(alloc, &script, &mut sink);
    Ok((sink, result))
}

#[test]
fn takeovers_are_written_whole(rt: HostRuntime) -> Result<(), Fail> {
    let cases: [(&[u8], &[u8]); 5] = [
        // Node 1 takes over from node 0, which then publishes what is left of its lease.
        (
            b"pair,2,1,2\nask,0,1,3\nrequest,0\ngrant,0\ntake,0,1\ntell,0,0\npublish,0\nrequest,1\ngrant,2\ntake,1,3\npublish,0\nhear,0,0\ntell,0,1\nhear,0,1\npublish,1\nhear,0,2\npublish,0\nend\n".as_slice(),
            b"granted,1,0,1,0\npublished,0,0\nbatch,0,0,1,0,3\nslot,1,0,1,-\ngranted,3,1,2,2\npublished,0,1\nslot,2,0,1,-\nsent,1,0,1\nrefused,14,stale\npublished,1,2\nbatch,2,0,1,0,2\nslot,3,0,1,-\nsent,3,0,1\nrefused,17,nolease\ntotal,0,1,3,2\nend,18\n".as_slice(),
        ),
        // A grant of an earlier boot is not taken.
        (
            b"pair,2,1,2\nask,0,1,1\nrequest,0\ngrant,0\ntake,0,1\ncrash,0\ntake,0,1\npublish,0\nend\n".as_slice(),
            b"granted,1,0,1,0\nrefused,7,oldboot\nrefused,8,nolease\ntotal,0,1,1,0\nend,9\n".as_slice(),
        ),
        // Each refusal.
        (
            b"pair,2,1,2\ngrant,0\ntell,0,0\nhear,1,0\nrequest,0\ngrant,0\ntake,0,1\ntake,0,1\npublish,0\nhear,0,0\nhear,0,0\nrequest,1\ngrant,2\ntake,1,3\ntell,0,1\nhear,0,0\ncrash,0\ntake,0,1\nend\n".as_slice(),
            b"refused,2,nomessage\nrefused,3,nolease\nrefused,4,unpublished\ngranted,1,0,1,0\nrefused,8,oldlease\npublished,0,0\nrefused,11,repeat\ngranted,3,1,2,2\nrefused,16,stale\nrefused,18,oldboot\nend,19\n".as_slice(),
        ),
        // Batches of three slots, in which several endpoints send.
        (
            b"pair,4,3,4\nask,0,1,2\nask,2,1,1\nask,0,3,2\nask,3,0,1\nrequest,1\ngrant,0\ntake,1,1\ntell,0,1\npublish,1\ntell,2,1\ntell,3,1\npublish,1\nhear,0,0\nhear,2,0\nhear,0,1\nhear,2,1\nhear,3,1\nend\n".as_slice(),
            b"granted,1,1,1,0\npublished,1,0\nbatch,0,0,1,0,2\nbatch,0,0,3,0,2\nslot,1,0,1,-\nslot,2,0,1,-\nslot,3,0,3,-\npublished,1,1\nbatch,1,2,1,0,1\nbatch,1,3,0,0,1\nslot,4,0,3,-\nslot,4,2,1,-\nslot,4,3,0,-\nsent,1,0,1\nsent,2,0,1\nsent,3,0,3\nsent,4,0,3\nsent,4,2,1\nsent,4,3,0\ntotal,0,1,2,2\ntotal,0,3,2,2\ntotal,2,1,1,1\ntotal,3,0,1,1\nend,19\n".as_slice(),
        ),
        // Nothing happens.
        (b"pair,2,1,1\nend\n".as_slice(), b"end,2\n".as_slice()),
    ];
    for (script, text) in &cases {
        let (sink, result) = written(&rt, rt.alloc(), *script, Vec::new(rt.alloc()))?;
        assert!(rt; result.is_ok());
        assert!(rt; sink.held() == *text);
    }
    Ok(())
}

#[test]
fn a_write_that_fails_is_told(rt: HostRuntime) -> Result<(), Fail> {
    let mut failing = Vec::new(rt.alloc());
    failing.push(0)?;
    let (sink, result) = written(&rt, rt.alloc(), b"pair,2,1,1\nend\n", failing)?;
    assert!(rt; result == Err(Stop::Write));
    assert!(rt; sink.held().is_empty());
    Ok(())
}
