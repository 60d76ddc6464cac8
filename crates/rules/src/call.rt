// A call of the link as a value, so that whole lists of calls can be handed over.
ghost use Rattle.std.specs.Prelude.{◌≡◌, length};
ghost use Rattle.rules.specs.Steps.{why_refused, number_of_why, refusal_of, part_of, payload_of};

use crate::answer::{Polled, Sent, Tag};
use crate::seat::Side;
use refusal::Refusal;

// A part of the bytes that all sends of a list share.
#[derive(Clone, Copy)]
pub struct Part {
    pub place: usize,
    pub size: usize,
}

// What a spoil does to a block: the addend goes to the byte at the place, modulo the block's length.
#[derive(Clone, Copy)]
pub struct Change {
    pub place: usize,
    pub addend: u8,
}

#[derive(Clone, Copy)]
pub enum Step {
    Open,
    Send(Tag, Part),
    Poll,
    Timeout,
    Lose,
    Spoil(Change),
}

// A step at one end, or on the line towards it.
#[derive(Clone, Copy)]
pub struct Call {
    pub side: Side,
    pub step: Step,
}

// What a call answered; a spoil answers as a poll does.
#[derive(Clone, Copy)]
pub enum Answer {
    Open(Result<usize, Refusal>),
    Send(Result<Sent, Refusal>),
    Poll(Result<Polled, Refusal>),
    Timeout(Result<usize, Refusal>),
    Lose(Result<usize, Refusal>),
}

impl Answer {
    // Why the call was refused, if it was.
    pub fn refusal(self) -> Option<Refusal>
        ensures why { result ≡ why_refused self }
        ensures number { number_of_why result ≡ refusal_of self }
    {
        match self {
            Answer::Open(r) | Answer::Timeout(r) | Answer::Lose(r) => r.err(),
            Answer::Send(r) => r.err(),
            Answer::Poll(r) => r.err(),
        }
    }
}

impl Part {
    // The part of the bytes, as far as there are so many.
    pub fn of<'a>(self, bytes: &'a [u8]) -> &'a [u8]
        ensures { result.now ≡ part_of bytes.now self }
    {
        let rest = &bytes[self.place.min(bytes.len())..];
        &rest[..self.size.min(rest.len())]
    }
}

impl Step {
    // The payload that a step sends, empty where it sends none.
    pub fn payload<'a>(self, bytes: &'a [u8]) -> &'a [u8]
        ensures { result.now ≡ payload_of bytes.now self }
    {
        match self {
            Step::Send(_, part) => part.of(bytes),
            _ => &bytes[0..0],
        }
    }
}
