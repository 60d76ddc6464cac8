// An end by itself, with blocks put on the line towards it: answers to which no script leads.
use crate::stage::rows;
use checks::sum::SumCheck;
use end::end::End;
use line::Line;
use login::Parameters;
use refusal::Refusal;
use row_line::RowLine;
use rules::answer::Polled;
use rules::seat::{Side, State};
use std::alloc::Global;
use std::process::Abort;
use std::test::Fail;

#[derive(Drop)]
struct Stand<A: Line, B: Line> {
    end: End,
    store: Vec<u8>,
    incoming: A,
    outgoing: B,
}

impl<A: Line, B: Line> Stand<A, B> {
    fn poll(&mut self) -> Result<Polled, Refusal> {
        self.end.poll::<A, B, SumCheck>(
            self.store.as_slice(),
            &mut self.incoming,
            &mut self.outgoing,
            &mut [0; 520],
        )
    }
}

// Stands for no answer where a status is expected. An `Option` would be no plainer: the tables stay bytes, as they were
// worked out by hand.
const SILENCE: u8 = 0xff;

// A sled's end in Initial, with the limits 4, 300 and 96.
fn sled(heap: Global) -> Result<Stand<RowLine, RowLine>, Fail> {
    let limits = Parameters {
        offset: 4,
        payload: 300,
        baud: 96,
    };
    Ok(Stand {
        end: End::new(heap, Side::Sled, limits)?,
        store: vec![in heap; 0; 4096]?,
        incoming: rows(heap)?,
        outgoing: rows(heap)?,
    })
}

// An answer with the status went out, if any is expected, and perhaps a log-in behind it. Empties the line.
fn answered<B: Line>(rt: &impl Abort, line: &mut B, status: u8) -> Result<(), Fail> {
    let mut buf = [0; 520];
    if status != SILENCE {
        assert_eq!(rt; line.take(&mut buf)?, 8);
        assert_eq!(rt; buf[6], status);
    }
    let _ = line.take(&mut buf);
    assert_eq!(rt; line.count(), 0);
    Ok(())
}

// The end polls a block: the status that goes back, and whether a record is handed up.
fn hears<A: Line, B: Line>(
    rt: &impl Abort,
    stand: &mut Stand<A, B>,
    block: &[u8],
    status: u8,
    handed: bool,
) -> Result<(), Fail> {
    stand.incoming.put(block)?;
    let polled = stand.poll()?;
    assert_eq!(rt; polled.up.is_some(), handed);
    assert_eq!(rt; polled.status.map_or(SILENCE, |sent| sent.code()), status);
    answered(rt, &mut stand.outgoing, status)
}

fn is_logged_out<A: Line, B: Line>(rt: &impl Abort, stand: &mut Stand<A, B>) -> Result<(), Fail> {
    assert_eq!(rt; stand.poll().err().map(|why| why.number()), Some(12));
    Ok(())
}

// A log-in with the agreed parameters and Accept 1, and the acknowledgement of the sled's own.
fn log_in<A: Line, B: Line>(rt: &impl Abort, stand: &mut Stand<A, B>) -> Result<(), Fail> {
    hears(
        rt,
        stand,
        b"\x01\x01\x00\x00\x00\x06\x40\x04\x01\x2c\x00\x60\xd9",
        0x00,
        false,
    )?;
    assert!(rt; matches!(stand.end.state(), State::Login));
    hears(
        rt,
        stand,
        b"\x80\x01\x00\x00\x00\x01\x00\x82",
        SILENCE,
        false,
    )?;
    assert!(rt; matches!(stand.end.state(), State::LoggedIn));
    Ok(())
}

// The offset is in turn 5 and 4, so that each log-in asks for another.
#[test]
fn the_ninth_log_in(rt: HostRuntime) -> Result<(), Fail> {
    let blocks: [&[u8]; 8] = [
        b"\x01\x01\x00\x00\x00\x06\x80\x05\x01\x2c\x00\x60\x1a",
        b"\x01\x02\x00\x00\x00\x06\x80\x04\x01\x2c\x00\x60\x1a",
        b"\x01\x03\x00\x00\x00\x06\x80\x05\x01\x2c\x00\x60\x1c",
        b"\x01\x04\x00\x00\x00\x06\x80\x04\x01\x2c\x00\x60\x1c",
        b"\x01\x05\x00\x00\x00\x06\x80\x05\x01\x2c\x00\x60\x1e",
        b"\x01\x06\x00\x00\x00\x06\x80\x04\x01\x2c\x00\x60\x1e",
        b"\x01\x07\x00\x00\x00\x06\x80\x05\x01\x2c\x00\x60\x20",
        b"\x01\x08\x00\x00\x00\x06\x80\x04\x01\x2c\x00\x60\x20",
    ];
    let mut stand = sled(rt.alloc())?;
    for block in blocks {
        hears(&rt, &mut stand, block, 0x00, false)?;
        assert!(rt; matches!(stand.end.state(), State::Login));
    }
    hears(
        &rt,
        &mut stand,
        b"\x01\x09\x00\x00\x00\x06\x80\x05\x01\x2c\x00\x60\x22",
        0x41,
        false,
    )?;
    assert!(rt; matches!(stand.end.state(), State::LoggedOut));
    is_logged_out(&rt, &mut stand)
}

// Not well-formed in three ways, link services 2h, 3h and Fh, records before the log-in, and an acknowledgement.
#[test]
fn answers_in_initial(rt: HostRuntime) -> Result<(), Fail> {
    let table: [(&[u8], u8); 9] = [
        (b"\x10\x01\x00\x01\x00\x00\x13", 0x01),
        (b"\x10\x01\x00\x01\x02\x01\x15", 0x02),
        (b"\x10\x01\x00\x01\x00\x01\x13", 0x03),
        (b"\x02\x01\x00\x00\x00\x00\x03", 0x07),
        (b"\x03\x01\x00\x00\x00\x00\x04", 0x04),
        (b"\x0f\x01\x00\x00\x00\x00\x10", 0x04),
        (b"\x10\x01\x00\x01\x00\x00\x12", 0x06),
        (b"\x70\x01\x00\x01\x00\x00\x72", 0x06),
        (b"\x00\x01\x00\x01\x00\x00\x02", SILENCE),
    ];
    let mut stand = sled(rt.alloc())?;
    for (block, status) in table {
        hears(&rt, &mut stand, block, status, false)?;
    }
    assert!(rt; matches!(stand.end.state(), State::Initial));
    Ok(())
}

// Size 0, number 0, Exchange ID 1, payload parameter 269 and baud 0.
#[test]
fn bad_log_ins(rt: HostRuntime) -> Result<(), Fail> {
    let blocks: [&[u8]; 5] = [
        b"\x01\x01\x00\x00\x00\x00\x02",
        b"\x01\x00\x00\x00\x00\x06\x80\x04\x01\x2c\x00\x60\x18",
        b"\x01\x01\x00\x01\x00\x06\x80\x04\x01\x2c\x00\x60\x1a",
        b"\x01\x01\x00\x00\x00\x06\x80\x04\x01\x0d\x00\x60\xfa",
        b"\x01\x01\x00\x00\x00\x06\x80\x04\x01\x2c\x00\x00\xb9",
    ];
    let mut stand = sled(rt.alloc())?;
    for block in blocks {
        hears(&rt, &mut stand, block, 0x41, false)?;
    }
    assert!(rt; matches!(stand.end.state(), State::Initial));
    Ok(())
}

// Reserved Protocols, link service 2h, Exchange ID 0; then numbers: ahead of turn, expected, repeated, 255 and 0.
#[test]
fn answers_in_logged_in(rt: HostRuntime) -> Result<(), Fail> {
    let table: [(&[u8], u8, bool); 11] = [
        (b"\x40\x01\x00\x01\x00\x00\x42", 0x04, false),
        (b"\x70\x01\x00\x01\x00\x00\x72", 0x04, false),
        (b"\x02\x01\x00\x00\x00\x00\x03", 0x07, false),
        (b"\x10\x01\x00\x00\x00\x00\x11", 0x42, false),
        (b"\x10\x02\x00\x01\x00\x00\x13", 0x40, false),
        (b"\x10\x01\x00\x01\x00\x00\x12", 0x00, true),
        (b"\x10\x01\x00\x01\x00\x00\x12", 0x00, false),
        (b"\x10\x02\x00\x01\x00\x00\x13", 0x00, true),
        (b"\x10\x02\x00\x01\x00\x00\x13", 0x00, false),
        (b"\x10\xff\x00\x01\x00\x00\x10", 0x40, false),
        (b"\x10\x00\x00\x01\x00\x00\x11", 0x40, false),
    ];
    let mut stand = sled(rt.alloc())?;
    log_in(&rt, &mut stand)?;
    for (block, status, handed) in table {
        hears(&rt, &mut stand, block, status, handed)?;
    }
    assert!(rt; matches!(stand.end.state(), State::LoggedIn));
    Ok(())
}

// 300 bytes of payload are agreed on.
#[test]
fn a_payload_above_the_agreed_size(rt: HostRuntime) -> Result<(), Fail> {
    let mut stand = sled(rt.alloc())?;
    log_in(&rt, &mut stand)?;
    let mut block = [0; 308];
    block[0..6].copy_from_slice(b"\x10\x01\x00\x01\x01\x2d");
    block[307] = 0x40;
    hears(&rt, &mut stand, &block, 0x42, false)?;
    block[5] = 0x2c;
    block[306] = 0x3f;
    hears(&rt, &mut stand, &block[0..307], 0x00, true)
}

// What was agreed may come again; anything else ends the link.
#[test]
fn a_log_in_in_logged_in(rt: HostRuntime) -> Result<(), Fail> {
    let mut stand = sled(rt.alloc())?;
    log_in(&rt, &mut stand)?;
    hears(
        &rt,
        &mut stand,
        b"\x01\x02\x00\x00\x00\x06\x40\x04\x01\x2c\x00\x60\xda",
        0x00,
        false,
    )?;
    assert!(rt; matches!(stand.end.state(), State::LoggedIn));
    hears(
        &rt,
        &mut stand,
        b"\x01\x02\x00\x00\x00\x06\x80\x04\x01\x2c\x00\x60\x1a",
        0x41,
        false,
    )?;
    assert!(rt; matches!(stand.end.state(), State::LoggedOut));
    is_logged_out(&rt, &mut stand)
}
