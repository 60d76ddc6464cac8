// A script carried out on a fresh link.
ghost use Rattle.std.specs.Prelude.{◌≡◌, IfOk, vec_len};
ghost use Rattle.rehearsal.specs.Rehearsals.{Rehearsed};

use block_check::Check;
use journal::carry::{Run, carry_out};
use line::Line;
use link::parts::{EndParts, Parts};
use login::Parameters;
use refusal::Failure;
use script::pattern::pattern;
use script::read::{Script, read};
use std::alloc::{AllocError, Global};

// What an end is made of, with a store of the least size that will do.
fn end_parts<L: Line + Drop>(
    heap: Global,
    limits: Parameters,
    line: L,
) -> Result<EndParts<L>, AllocError>
    ensures { IfOk result (λ p. (p.limits ≡ limits) × (p.line ≡ line) × (vec_len p.store ≡ 4096)) }
{
    let store = vec![in heap; 0; 4096]?;
    Ok(EndParts {
        limits,
        line,
        store,
    })
}

// Reads a script and carries it out on a link that is made of two lines and a check, with a pattern for the payloads.
#[tactic(auto, using(crate::proofs::Scripts::has_shape))]
pub fn rehearse<A: Line + Drop, B: Line + Drop, K: Check + Drop>(
    heap: Global,
    script: &[u8],
    lines: (A, B),
    check: K,
) -> Result<Run<A, B, K>, Failure>
    ensures { Rehearsed K.Check.code A.Line B.Line script.now lines result }
{
    let Script {
        controller,
        sled,
        calls,
    } = read(heap, script)?;
    let (to_controller, to_sled) = lines;
    let parts = Parts {
        controller: end_parts(heap, controller, to_controller)?,
        sled: end_parts(heap, sled, to_sled)?,
        check,
    };
    let payloads = pattern(heap)?;
    let mut scratch = [0; 520];
    let run = carry_out(
        heap,
        parts,
        calls.as_slice(),
        payloads.as_slice(),
        &mut scratch,
    )?;
    Ok(run)
}
