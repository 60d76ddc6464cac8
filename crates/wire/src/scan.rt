// The scan for the first whole frame.
ghost use Rattle.std.specs.Prelude.{◌≡◌, ◌≤◌, length, take, ◌==◌, position};
ghost use Rattle.wire.specs.Form.{act_of, found};

use crate::write::LONGEST_BLOCK;

// Where the scan stands.
#[derive(Clone, Copy)]
pub enum Place {
    Outside,
    Inside,
    Escaped,
}

// What a byte asks for.
#[derive(Clone, Copy)]
pub enum Act {
    Skip,
    Begin,
    Escape,
    Leave,
    Finish,
    Keep(u8),
}

fn act_on(place: Place, b: u8) -> Act
    ensures { result ≡ act_of place b }
{
    match (place, b) {
        (_, 0x02) => Act::Begin,
        (Place::Outside, _) => Act::Skip,
        (Place::Inside, 0x03) => Act::Finish,
        (Place::Inside, 0x1b) => Act::Escape,
        (Place::Inside, _) => Act::Keep(b),
        (Place::Escaped, 0x82 | 0x83 | 0x9b) => Act::Keep(b - 0x80),
        (Place::Escaped, _) => Act::Leave,
    }
}

// Where the first frame begins, if one does.
fn begin(input: &[u8]) -> Option<usize>
    ensures { result ≡ position (λ b. b == 0x02) input.now }
{
    let mut bytes = input.iter();
    bytes.position(|b| *b == 0x02)
}

// The input from its first 02h on: what precedes a frame is ignored, and this is the quickest way past it.
#[tactic(auto, using(crate::proofs::Scanning::skips))]
pub(crate) fn skip(input: &[u8]) -> &[u8]
    ensures { found result.now ≡ found input.now }
{
    let place = begin(input).unwrap_or(input.len());
    &input[place..]
}

// The first block of the input, left at the front of `frame`, which is the scan's own and so may keep traces of
// abandoned frames: its length, 0 where there is none, and the rest of the input.
// A tuple with 0 for none and no Option, as a rule of the project asks of the reader. The length is a number beside an
// array: a vector of fixed room is cleared byte by byte where a frame is begun anew, and keeps its length in memory.
pub(crate) fn scan<'a>(input: &'a [u8], frame: &mut [u8; LONGEST_BLOCK]) -> (usize, &'a [u8])
    ensures within { result.0 ≤ 520 }
    ensures size { result.0 ≡ length (found input.now).block }
    ensures block { take result.0 frame.new ≡ (found input.now).block }
    ensures rest { result.1.now ≡ (found input.now).rest }
{
    let mut place = Place::Outside;
    let mut n = 0;
    for (i, b) in input.iter().enumerate() {
        match act_on(place, *b) {
            Act::Skip => {}
            Act::Begin => {
                place = Place::Inside;
                n = 0;
            }
            Act::Escape => place = Place::Escaped,
            Act::Finish if n > 0 => return (n, &input[i + 1..]),
            Act::Keep(x) if n < LONGEST_BLOCK => {
                frame[n] = x;
                n += 1;
                place = Place::Inside;
            }
            Act::Leave | Act::Finish | Act::Keep(_) => {
                place = Place::Outside;
                n = 0;
            }
        }
    }
    (0, &input[input.len()..])
}
