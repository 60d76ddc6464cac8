ghost use Rattle.std.specs.Prelude.{IfOk};
ghost use Rattle.row_line.specs.Waiting.{relies};

use crate::row::Row;
use crate::rows::RowLine;
use line::Line;
use refusal::{Layer, Reason};
use std::test::Fail;

fn make(rt: HostRuntime, rows: usize) -> Result<RowLine, Fail>
    ensures { IfOk result relies }
{
    let memory = vec![in rt.alloc(); Row::blank(); rows]?;
    RowLine::new(memory).map_err(|declined| Fail::new(declined.refusal))
}

#[tactic(auto, using(crate::specs::Relied::relied))]
#[test]
fn sixteen_wait_in_order(rt: HostRuntime) -> Result<(), Fail> {
    let mut line = make(rt, 16)?;
    let mut buf = [0; 520];
    for i in 0..16u8 {
        assert_eq!(rt; line.put(&[i, 7]), Ok(()));
    }
    assert_eq!(rt; line.put(&[16]), Err(Layer::Line.refuses(Reason::LineFull)));
    for i in 0..16u8 {
        assert_eq!(rt; line.take(&mut buf), Ok(2));
        assert_eq!(rt; buf[0], i);
    }
    assert_eq!(rt;
        line.take(&mut buf),
        Err(Layer::Line.refuses(Reason::NothingWaits))
    );
    Ok(())
}

// This test and the next stand in the wire line's tests too: one text would be a library function that can stop the
// program, and a rule of the project allows none.
#[test]
fn what_lies_behind_is_kept(rt: HostRuntime) -> Result<(), Fail> {
    let mut line = make(rt, 17)?;
    let mut buf = [9; 521];
    assert_eq!(rt; line.put(&[1, 2, 3]), Ok(()));
    assert_eq!(rt;
        line.take(&mut buf[0..519]),
        Err(Layer::Line.refuses(Reason::TooShort))
    );
    assert_eq!(rt; line.count(), 1);
    assert_eq!(rt; line.take(&mut buf), Ok(3));
    assert_eq!(rt; line.count(), 0);
    assert!(rt; buf[2] == 3 && buf[3] == 9 && buf[520] == 9);
    Ok(())
}

#[test]
fn sizes_that_are_refused(rt: HostRuntime) -> Result<(), Fail> {
    let mut line = make(rt, 16)?;
    assert_eq!(rt;
        line.put(&[]),
        Err(Layer::Line.refuses(Reason::BlockLength))
    );
    assert_eq!(rt;
        line.put(&[0; 521]),
        Err(Layer::Line.refuses(Reason::BlockLength))
    );
    assert_eq!(rt; line.put(&[0; 520]), Ok(()));
    let memory = vec![in rt.alloc(); Row::blank(); 15]?;
    match RowLine::new(memory) {
        Ok(_) => Err(Fail::new("made of too little memory")),
        Err(declined) => {
            assert!(rt;
                declined.refusal == Layer::Line.refuses(Reason::TooShort)
                    && declined.given.len() == 15
            );
            Ok(())
        },
    }
}
