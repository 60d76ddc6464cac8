// What the tests share: scripts made of letters, and a rehearsal whose printed lines are compared.
use block_check::Check;
use checks::long::LongCheck;
use checks::sum::SumCheck;
use counted::Counted;
use line::Line;
use refusal::Failure;
use rehearsal::rehearse::rehearse;
use rehearsal::row::Rows;
use row_line::RowLine;
use std::alloc::{AllocError, Global};
use std::fmt::Write;
use std::process::Abort;
use std::test::Fail;
use wire_line::WireLine;

// As the tests of lines make lines too: a crate for these two makers would be no plainer.
pub(crate) fn rows(heap: Global) -> Result<RowLine, Fail> {
    RowLine::new(vec![in heap; row_line::Row::blank(); 16]?).map_err(|_| Fail::new("no line"))
}

pub(crate) fn wires(heap: Global) -> Result<WireLine, Fail> {
    WireLine::new(vec![in heap; 0; 16672]?).map_err(|_| Fail::new("no line"))
}

fn takes_argument(letter: u8) -> bool {
    matches!(letter, b'S' | b's' | b'X' | b'x')
}

// An argument for each letter: those of sends and spoils are given; where they run out, it is Exchange ID 1 and no
// payload.
fn push_arguments(
    bytes: &mut Vec<u8>,
    letters: &[u8],
    given: &[(u16, u16)],
) -> Result<(), AllocError> {
    let mut given = given.iter();
    for letter in letters {
        let (high, low) = if takes_argument(*letter) {
            given.next().copied().unwrap_or((1, 0))
        } else {
            (0, 0)
        };
        bytes.extend_from_slice(&high.to_be_bytes())?;
        bytes.extend_from_slice(&low.to_be_bytes())?;
    }
    Ok(())
}

// A script's bytes, with the arguments of its sends and spoils.
pub(crate) fn script(
    heap: Global,
    limits: (u16, u16),
    letters: &[u8],
    arguments: &[(u16, u16)],
) -> Result<Vec<u8>, AllocError> {
    let mut bytes = Vec::new(heap);
    let [.., high, low] = letters.len().to_be_bytes();
    bytes.extend_from_slice(&[high, low])?;
    bytes.extend_from_slice(&limits.0.to_be_bytes())?;
    bytes.extend_from_slice(&limits.1.to_be_bytes())?;
    bytes.extend_from_slice(letters)?;
    push_arguments(&mut bytes, letters, arguments)?;
    Ok(bytes)
}

// A script, and what its rehearsal must print.
#[derive(Clone, Copy)]
struct Trial<'a> {
    heap: Global,
    script: &'a [u8],
    expected: &'a str,
}

impl<'a> Trial<'a> {
    fn printed<A: Line + Drop, B: Line + Drop, K: Check + Drop>(
        &self,
        lines: (A, B),
        check: K,
    ) -> Result<String, Fail> {
        let mut text = String::new(self.heap);
        match rehearse(self.heap, self.script, lines, check) {
            Ok(run) => {
                for row in Rows::new(self.script, &run.journal) {
                    writeln!(text, "{row}")?;
                }
            }
            Err(Failure::Refused(why)) => writeln!(text, "refused {}", why.number())?,
            Err(Failure::OutOfMemory(e)) => return Err(e.into()),
        }
        Ok(text)
    }

    fn over<A: Line + Drop, B: Line + Drop, K: Check + Drop>(
        &self,
        rt: &impl Abort,
        lines: (A, B),
        check: K,
    ) -> Result<(), Fail> {
        let text = self.printed(lines, check)?;
        for (found, wanted) in text.as_str().lines().zip(self.expected.lines()) {
            assert_eq!(rt; found, wanted);
        }
        assert!(rt; text.as_str() == self.expected);
        Ok(())
    }
}

// What is printed is the same over every pair of lines and under either check.
pub(crate) fn prints(
    rt: &impl Abort,
    heap: Global,
    script: &[u8],
    expected: &str,
) -> Result<(), Fail> {
    let trial = Trial {
        heap,
        script,
        expected,
    };
    trial.over(rt, (rows(heap)?, rows(heap)?), SumCheck)?;
    trial.over(rt, (rows(heap)?, rows(heap)?), LongCheck)?;
    trial.over(rt, (rows(heap)?, wires(heap)?), SumCheck)?;
    trial.over(rt, (wires(heap)?, rows(heap)?), SumCheck)?;
    trial.over(rt, (wires(heap)?, wires(heap)?), SumCheck)?;
    let counted = Counted::new(rows(heap)?);
    trial.over(rt, (wires(heap)?, counted), LongCheck)
}
