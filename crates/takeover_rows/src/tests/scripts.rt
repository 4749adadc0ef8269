//! The text of a row, and each fault once.

use script_text::read_script;
use std::test::Fail;
use takeover_core::Event;
use trace_text::{Fault, TraceRefused};

#[test]
fn a_script_is_read(rt: HostRuntime) -> Result<(), Fail> {
    let text =
        b"pair,2,1,2\nask,0,1,3\nrequest,0\ngrant,0\ntake,0,1\ntell,0,0\npublish,0\nhear,0,0\ncrash,0\nend\n";
    let read = read_script(rt.alloc(), text.as_slice());
    assert!(rt; read.is_ok());
    if let Ok(script) = read {
        let events = script.events();
        assert_eq!(rt; script.pair(), (2, 1, 2));
        assert_eq!(rt; events.len(), 8);
        assert!(rt;
            events[0]
                == Event::Ask {
                    src: 0,
                    dst: 1,
                    slots: 3
                }
        );
        assert!(rt; events[6] == Event::Hear { src: 0, batch: 0 });
    }
    Ok(())
}

#[test]
fn the_first_faulty_row_is_told(rt: HostRuntime) -> Result<(), Fail> {
    let rows: [(&[u8], u32, Fault); 13] = [
        (b"".as_slice(), 1, Fault::NoNet),
        (b"ask,0,1,3\n".as_slice(), 1, Fault::NoNet),
        (b"pair,2,1,2\nnet,1,2,1\n".as_slice(), 2, Fault::Kind),
        (b"pair,2,1,2\nend,1\n".as_slice(), 2, Fault::Fields),
        (b"pair,2,1,2\ngrant,01\n".as_slice(), 2, Fault::Number),
        (b"pair,65,1,2\n".as_slice(), 1, Fault::Range),
        (b"pair,2,1,2\ncrash,2\n".as_slice(), 2, Fault::Range),
        (b"pair,2,1,2\nask,1,1,3\n".as_slice(), 2, Fault::SelfFlow),
        (b"pair,2,1,2\npair,2,1,2\n".as_slice(), 2, Fault::Order),
        (b"pair,2,1,2\nend\ncrash,0\n".as_slice(), 3, Fault::Order),
        (
            b"pair,2,1,2\nask,0,1,100000000\nask,0,1,1\n".as_slice(),
            3,
            Fault::Sum,
        ),
        (b"pair,2,1,2\ncrash,0\n".as_slice(), 3, Fault::NoEnd),
        (b"\xef\xbb\xbfpair,2,1,2\n".as_slice(), 2, Fault::NoEnd),
    ];
    for (text, row, fault) in &rows {
        let refused = read_script(rt.alloc(), *text).err();
        let wanted = TraceRefused::Row {
            row: *row,
            fault: *fault,
        };
        assert!(rt; refused == Some(wanted));
    }
    Ok(())
}
