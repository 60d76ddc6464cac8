// How an end puts its blocks on a line: built, sealed and put, and nothing else is put.
ghost use Rattle.std.specs.Prelude.{◌≡◌, ◌≤◌, true, take, if◌then◌else◌};
ghost use Rattle.refusal.specs.Buffers.{over};
ghost use Rattle.line.specs.Blocks.{taken, put_after};
ghost use Rattle.block.specs.Form.{in_range};
ghost use Rattle.block.specs.Reading.{content};
ghost use Rattle.rules.specs.Frames.{log_in_frame, acks, latest_frames, replies};
ghost use Rattle.rules.specs.Sending.{block, blocks, puts, took, builds};

use block::build::build;
use block::frame::Frame;
use block::half::Sealed;
use block::heading::{Heading, LinkMessage, Protocol};
use block::status::Status;
use block_check::Check;
use line::Line;
use rules::answer::Heard;
use rules::seat::{Latest, Seat, Side};

// Blocks are built here. It goes in beside the line, since a struct that lends both would owe in each function a clause
// that it still holds the same two.
pub(crate) type Buffer = [u8; 520];

// Puts a sealed block on a line, and answers how many blocks the line took: one that is refused there is lost.
// A count of at most 1, as each function here says: callers add it up, so a `bool` that each turns into one would be no
// plainer.
fn put_sealed<B: Line>(line: &mut B, sealed: Sealed, buf: &Buffer) -> usize
    ensures answer { result ≡ (if taken (B.Line.waiting line.old) (take sealed.len buf.now) then 1 else 0) }
    ensures bound { result ≤ 1 }
    ensures after { B.Line.waiting line.new ≡ put_after (B.Line.waiting line.old) (take sealed.len buf.now) }
{
    let Ok(bytes) = sealed.bytes(buf) else {
        return 0;
    };
    usize::from(line.put(bytes).is_ok())
}

// Builds a block at the front of a buffer and puts it on a line.
pub(crate) fn emit<B: Line, K: Check>(line: &mut B, frame: Frame<'_>, buf: &mut Buffer) -> usize
    ensures answer { result ≡ (if taken (B.Line.waiting line.old) (block K.Check.code (content frame.entry)) then 1 else 0) }
    ensures bound { result ≤ 1 }
    ensures after { B.Line.waiting line.new ≡ put_after (B.Line.waiting line.old) (block K.Check.code (content frame.entry)) }
    ensures buffer { buf.new ≡ over (block K.Check.code (content frame.entry)) buf.old }
{
    let Ok(sealed) = build::<K>(frame.heading, frame.payload, buf) else {
        return 0;
    };
    put_sealed(line, sealed, buf)
}

// A log-in at the front of a buffer, and on a line.
pub(crate) fn emit_log_in<B: Line, K: Check>(
    line: &mut B,
    side: Side,
    latest: Latest,
    buf: &mut Buffer,
) -> usize
    ensures answer { result ≡ (if taken (B.Line.waiting line.old) (block K.Check.code (log_in_frame side latest)) then 1 else 0) }
    ensures bound { result ≤ 1 }
    ensures after { B.Line.waiting line.new ≡ put_after (B.Line.waiting line.old) (block K.Check.code (log_in_frame side latest)) }
    ensures buffer { buf.new ≡ over (block K.Check.code (log_in_frame side latest)) buf.old }
{
    let heading = Heading {
        origin: side.origin(),
        protocol: Protocol::LinkService as u8,
        kind: LinkMessage::LogIn as u8,
        number: latest.number,
        exchange: 0,
    };
    let payload = latest.message.encode();
    let frame = Frame {
        heading,
        payload: &payload,
    };
    emit::<B, K>(line, frame, buf)
}

// The latest log-in, if one was sent.
pub(crate) fn emit_latest<B: Line, K: Check>(
    line: &mut B,
    side: Side,
    latest: Option<Latest>,
    buf: &mut Buffer,
) -> usize
    ensures answer { result ≡ took (B.Line.waiting line.old) (blocks K.Check.code (latest_frames side latest)) }
    ensures bound { result ≤ 1 }
    ensures after { B.Line.waiting line.new ≡ puts (B.Line.waiting line.old) (blocks K.Check.code (latest_frames side latest)) }
    ensures buffer { buf.new ≡ builds buf.old (blocks K.Check.code (latest_frames side latest)) }
{
    match latest {
        None => 0,
        Some(l) => emit_log_in::<B, K>(line, side, l, buf),
    }
}

// An answer to a block, if there is one.
fn emit_ack<B: Line, K: Check>(
    line: &mut B,
    to: Heading,
    status: Option<Status>,
    buf: &mut Buffer,
) -> usize
    requires { in_range to ≡ true }
    ensures answer { result ≡ took (B.Line.waiting line.old) (blocks K.Check.code (acks to status)) }
    ensures bound { result ≤ 1 }
    ensures after { B.Line.waiting line.new ≡ puts (B.Line.waiting line.old) (blocks K.Check.code (acks to status)) }
{
    let Some(status) = status else {
        return 0;
    };
    let heading = Heading {
        protocol: Protocol::LinkService as u8,
        kind: LinkMessage::Acknowledgement as u8,
        ..to
    };
    let frame = Frame {
        heading,
        payload: &[status.code()],
    };
    emit::<B, K>(line, frame, buf)
}

// What goes out in answer to a frame, built in a buffer of its own, and how many blocks of it the line took.
#[tactic(auto, using(crate::proofs::Sending::in_two_goes), unfolding(rules::specs::Frames::replies))]
pub(crate) fn reply<B: Line, K: Check>(line: &mut B, seat: Seat, to: Heading, heard: Heard) -> usize
    requires { in_range to ≡ true }
    ensures answer { result ≡ took (B.Line.waiting line.old) (blocks K.Check.code (replies seat to heard)) }
    ensures after { B.Line.waiting line.new ≡ puts (B.Line.waiting line.old) (blocks K.Check.code (replies seat to heard)) }
{
    let mut buf = [0; 520];
    let acked = emit_ack::<B, K>(line, to, heard.status(), &mut buf);
    match heard {
        Heard::Renew => acked + emit_latest::<B, K>(line, seat.side, seat.talk.latest, &mut buf),
        Heard::Quiet(_) | Heard::Answer(_) | Heard::Hand => acked,
    }
}
