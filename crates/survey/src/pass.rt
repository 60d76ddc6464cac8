// The pass over a capture.
ghost use Rattle.std.specs.Prelude.{◌≡◌, ◌+◌, ◌^◌, ◌<◌, ◌++◌, length, IfOk, OnOk};
ghost use Rattle.survey.specs.Passing.{begun, gap_item, Stepped, survey_of};

use crate::item::{Carried, Item, Skipped};
use crate::seen::see;
use block_check::Check;
use std::alloc::{AllocError, Global};
use wire::read::read;
use wire::write::measure;

// How many frames are begun in the bytes.
fn count_begun(bytes: &[u8]) -> usize
    ensures { result ≡ begun bytes.now }
{
    bytes.iter().map(|b| usize::from(*b == 0x02)).sum()
}

// Notes bytes that belong to no block, if there are any.
fn skip(offset: usize, bytes: &[u8], items: &mut Vec<Item>) -> Result<(), AllocError>
    ensures { OnOk result (items.new.items ≡ items.old.items ++ gap_item offset bytes.now) }
{
    if !bytes.is_empty() {
        items.push(Item::Gap(Skipped {
            offset,
            length: bytes.len(),
            begun: count_begun(bytes),
        }))?;
    }
    Ok(())
}

// Notes the first block of the input with what precedes it, and answers the rest; notes all of an input that holds no
// block, and answers nothing.
fn step<'a, K: Check>(
    offset: usize,
    input: &'a [u8],
    buf: &mut [u8; 520],
    items: &mut Vec<Item>,
) -> Result<Option<&'a [u8]>, AllocError>
    requires { offset + length input.now < 2 ^ 64 }
    ensures { IfOk result (Stepped K.Check.code.width K.Check.code.value offset input.now items.old.items items.new.items) }
{
    let Ok((length, rest)) = read(input, buf) else {
        skip(offset, input, items)?;
        return Ok(None);
    };
    let block = &buf[0..length];
    let framed = measure(block).unwrap();
    let before = input.len() - rest.len() - framed;
    skip(offset, &input[0..before], items)?;
    items.push(Item::Block(Carried {
        offset: offset + before,
        length,
        seen: see::<K>(block),
    }))?;
    Ok(Some(rest))
}

// What the capture holds, in order.
pub fn survey<K: Check>(heap: Global, capture: &[u8]) -> Result<Vec<Item>, AllocError>
    ensures { IfOk result (λ v. v.items ≡ survey_of K.Check.code.width K.Check.code.value capture.now) }
{
    let mut items = Vec::new(heap);
    let mut buf = [0; 520];
    let mut input = capture;
    while let Some(rest) = step::<K>(capture.len() - input.len(), input, &mut buf, &mut items)? {
        input = rest;
    }
    Ok(items)
}
