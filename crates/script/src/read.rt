// A script, read whole before its first step.
ghost use Rattle.std.specs.Prelude.{◌≡◌, ◌*◌, ◌≤◌, length};
ghost use Rattle.script.specs.Format.{limits_of};
ghost use Rattle.script.specs.Answers.{Answers, Follows};

use crate::letter::call_of;
use crate::shape::{is_shaped, number_at};
use login::Parameters;
use refusal::{Failure, Layer, Reason};
use rules::call::Call;
use rules::limits::limits_hold;
use std::alloc::Global;

#[derive(Drop)]
pub struct Script {
    pub controller: Parameters,
    pub sled: Parameters,
    pub calls: Vec<Call>,
}

// One call for each letter with its four bytes, or a refusal where one letter is unknown.
#[tactic(auto, using(crate::proofs::Reading::next_letter), unfolding(crate::specs::Format::calls_of))]
fn read_calls(heap: Global, letters: &[u8], arguments: &[u8]) -> Result<Vec<Call>, Failure>
    requires { 4 * length letters.now ≤ length arguments.now }
    ensures { Follows letters.now arguments.now result }
{
    let mut calls = Vec::with_capacity(heap, letters.len())?;
    for (letter, argument) in letters.iter().zip(arguments.chunks_exact(4)) {
        let call = call_of(*letter, number_at(argument, 0), number_at(argument, 2)).ok_or(
            Layer::Bench.refuses(Reason::UnknownLetter),
        )?;
        calls.push_reserved(call);
    }
    Ok(calls)
}

// What a script leaves open of an end's limits is its payload.
fn limits_of(offset: u8, payload: u16) -> Parameters
    ensures { result ≡ limits_of offset payload }
{
    Parameters {
        offset,
        payload,
        baud: 96,
    }
}

// Refused for its shape, then for any of its letters, then for its limits.
#[tactic(auto, unfolding(crate::specs::Format::read_script))]
pub fn read(heap: Global, script: &[u8]) -> Result<Script, Failure>
    ensures { Answers script.now result }
{
    if !is_shaped(script) {
        return Err(Layer::Bench.refuses(Reason::ScriptShape).into());
    }
    let controller = limits_of(8, number_at(script, 2));
    let sled = limits_of(4, number_at(script, 4));
    let (letters, arguments) = script[6..].split_at(usize::from(number_at(script, 0)));
    let calls = read_calls(heap, letters, arguments)?;
    if !limits_hold(controller) || !limits_hold(sled) {
        return Err(Layer::End.refuses(Reason::LimitOutOfRange).into());
    }
    Ok(Script {
        controller,
        sled,
        calls,
    })
}
