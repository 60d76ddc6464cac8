// One frame at the end or at the front of a queue of wire bytes.
ghost use Rattle.std.specs.Prelude.{◌≡◌, ◌+◌, ◌≤◌, ◌++◌, length};
ghost use Rattle.queue.specs.Contents.{contents, capacity};
ghost use Rattle.refusal.specs.Buffers.{over};
ghost use Rattle.wire.specs.Form.{framed, found};
ghost use Rattle.wire_line.specs.Frames.{Begins};

use queue::Queue;
use wire::read::read;
use wire::write::{LONGEST_FRAME, write};

// Adds the frame of the block.
pub(crate) fn append(bytes: &mut Queue<u8>, block: &[u8])
    requires size { (1 ≤ length block.now) × (length block.now ≤ 520) }
    requires room { length (contents bytes.old) + 1042 ≤ capacity bytes.old }
    ensures after { contents bytes.new ≡ contents bytes.old ++ framed block.now }
    ensures capacity { capacity bytes.new ≡ capacity bytes.old }
{
    let mut frame = [0; LONGEST_FRAME];
    let n = write(block, &mut frame).unwrap();
    bytes.extend(&frame[..n]).unwrap();
}

// Moves the block of the first frame to the front of `buf`, and answers its length.
#[tactic(auto, using(crate::proofs::Flat::drop_first))]
pub(crate) fn split_first(bytes: &mut Queue<u8>, buf: &mut [u8]) -> usize
    requires begins { Begins (contents bytes.old) }
    requires room { 520 ≤ length buf.old }
    ensures answer { result ≡ length (found (contents bytes.old)).block }
    ensures after { contents bytes.new ≡ (found (contents bytes.old)).rest }
    ensures capacity { capacity bytes.new ≡ capacity bytes.old }
    ensures buffer { buf.new ≡ over (found (contents bytes.old)).block buf.old }
{
    let (n, rest) = read(bytes.as_slice(), buf).unwrap();
    let seen = bytes.len() - rest.len();
    bytes.drop_oldest(seen);
    n
}
