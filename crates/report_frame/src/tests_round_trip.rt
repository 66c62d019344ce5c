// Reports are spelled, and read back.
use crate::{FrameView, Head, Report, Value, Version, decode_view, encode};
use field61::{Fe, MODULUS};
use star_io::Bytes;
use std::alloc::Global;
use std::test::Fail;

// What of a report its limits are about.
#[derive(Clone, Copy, Debug)]
struct Limits {
    version: Version,
    level: u8,
    k: u16,
    x: u64,
    share: u64,
    boxed: usize,
    body: usize,
}

const LEAST: Limits = Limits {
    version: Version::One,
    level: 0,
    k: 2,
    x: 1,
    share: 0,
    boxed: 1,
    body: 1,
};

// A report of epoch 1 in which every byte and number that isn't stated is 0.
fn report_of(alloc: Global, limits: &Limits) -> Result<Report, Fail> {
    let zeros = vec![in alloc; 0u8; limits.boxed]?;
    let share = Fe::new(limits.share).ok_or("a share")?;
    Ok(Report {
        level: limits.level,
        epoch: 1,
        head: Head {
            version: limits.version,
            k: limits.k,
            tag: [0; 16],
            check: [0; 32],
            boxed: Value::of(zeros.as_slice()).ok_or("a box")?,
        },
        x: Fe::new(limits.x).ok_or("a point")?,
        y: [share, share, share],
        nonce: [0; 12],
        body: Bytes::from_vec(vec![in alloc; 0u8; limits.body]?),
        seal: [0; 32],
    })
}

fn is_same(view: &FrameView<'_>, report: &Report) -> bool {
    view.level() == report.level
        && view.epoch() == report.epoch
        && view.head() == report.head
        && view.x() == report.x
        && view.y() == report.y
        && view.nonce() == report.nonce
        && view.body() == report.body.as_slice()
        && view.seal() == report.seal
}

#[test]
fn the_least_report_is_spelled(rt: HostRuntime) -> Result<(), Fail> {
    let alloc = rt.alloc();
    let report = report_of(alloc, &LEAST)?;
    assert!(rt; report.is_good());
    let mut wanted = [0u8; 139];
    wanted[..18].copy_from_slice(b"ST\x01\0\0\0\0\x01\0\x02\0\0\0\0\0\0\0\x01");
    wanted[90] = 1;
    wanted[105] = 1;
    assert_eq!(rt; encode(alloc, &report)?.as_slice(), wanted.as_slice());
    Ok(())
}

#[test]
fn reports_at_their_limits_go_round(rt: HostRuntime) -> Result<(), Fail> {
    let alloc = rt.alloc();
    let last = MODULUS - 1;
    let cases = [
        LEAST,
        Limits {
            level: 7,
            k: 512,
            x: last,
            share: last,
            boxed: 64,
            ..LEAST
        },
        Limits {
            body: 3958,
            ..LEAST
        },
        Limits {
            level: 7,
            share: last,
            boxed: 64,
            body: 3895,
            ..LEAST
        },
        Limits {
            version: Version::Two,
            level: 15,
            k: 4096,
            boxed: 64,
            body: 7991,
            ..LEAST
        },
    ];
    for limits in cases {
        let report = report_of(alloc, &limits)?;
        assert!(rt; report.is_good(), "{limits:?}");
        let frame = encode(alloc, &report)?;
        assert_eq!(rt; frame.len(), 137 + limits.boxed + limits.body);
        match decode_view(frame.as_slice()) {
            Ok(view) => assert!(rt; is_same(&view, &report), "{limits:?}"),
            Err(fault) => assert!(rt; false, "{limits:?}: {fault:?}"),
        }
    }
    Ok(())
}

#[test]
fn reports_past_their_limits_have_no_frame(rt: HostRuntime) -> Result<(), Fail> {
    let alloc = rt.alloc();
    let two = Limits {
        version: Version::Two,
        ..LEAST
    };
    let cases = [
        Limits { level: 8, ..LEAST },
        Limits { k: 1, ..LEAST },
        Limits { k: 513, ..LEAST },
        Limits { x: 0, ..LEAST },
        Limits { body: 0, ..LEAST },
        Limits {
            body: 3959,
            ..LEAST
        },
        Limits {
            boxed: 64,
            body: 3896,
            ..LEAST
        },
        Limits { level: 16, ..two },
        Limits { k: 4097, ..two },
        Limits { body: 8056, ..two },
    ];
    for limits in cases {
        assert!(rt; !report_of(alloc, &limits)?.is_good(), "{limits:?}");
    }
    Ok(())
}
