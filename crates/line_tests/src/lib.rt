// The lines at work, one text for every pair of them.
#![tactic(auto)]

#[cfg(test)]
mod tests {
    use counted::Counted;
    use line::Line;
    use relay::relay;
    use row_line::{Row, RowLine};
    use std::alloc::Global;
    use std::process::Abort;
    use std::test::Fail;
    use wire_line::WireLine;

    // As the tests of scripts make lines too: a crate for these two makers would be no plainer.
    fn rows(heap: Global) -> Result<RowLine, Fail> {
        RowLine::new(vec![in heap; Row::blank(); 16]?).map_err(|_| Fail::new("no line"))
    }

    fn wires(heap: Global) -> Result<WireLine, Fail> {
        WireLine::new(vec![in heap; 0; 16672]?).map_err(|_| Fail::new("no line"))
    }

    // Fifteen wait on the one and two on the other: fourteen go over, in order.
    fn carries<A: Line, B: Line>(rt: &impl Abort, from: &mut A, to: &mut B) -> Result<(), Fail> {
        let mut buf = [0xee; 521];
        for i in 0..15u8 {
            from.put(&[i, 0x1b, 0x02])?;
        }
        to.put(&[0x61])?;
        to.put(&[0x62])?;
        assert_eq!(rt; relay(from, to, &mut buf)?, 14);
        assert_eq!(rt; (from.count(), to.count()), (1, 16));
        assert_eq!(rt; to.take(&mut buf)?, 1);
        assert_eq!(rt; to.take(&mut buf)?, 1);
        assert_eq!(rt; to.take(&mut buf)?, 3);
        assert_eq!(rt; (buf[0], buf[1], buf[2]), (0, 0x1b, 0x02));
        assert_eq!(rt; (buf[3], buf[520]), (0xee, 0xee));
        assert_eq!(rt; from.take(&mut buf)?, 3);
        assert_eq!(rt; buf[0], 14);
        Ok(())
    }

    #[test]
    fn rows_to_rows(rt: HostRuntime) -> Result<(), Fail> {
        carries(&rt, &mut rows(rt.alloc())?, &mut rows(rt.alloc())?)
    }

    #[test]
    fn rows_to_wire(rt: HostRuntime) -> Result<(), Fail> {
        carries(&rt, &mut rows(rt.alloc())?, &mut wires(rt.alloc())?)
    }

    #[test]
    fn wire_to_wire(rt: HostRuntime) -> Result<(), Fail> {
        carries(&rt, &mut wires(rt.alloc())?, &mut wires(rt.alloc())?)
    }

    // A counted line is a line, over wire bytes as well, and counts what it refuses.
    #[test]
    fn wire_to_counted(rt: HostRuntime) -> Result<(), Fail> {
        let mut counted = Counted::new(wires(rt.alloc())?);
        assert!(rt; counted.put(&[]).is_err());
        carries(&rt, &mut wires(rt.alloc())?, &mut counted)?;
        assert_eq!(rt; counted.refused(), 1);
        Ok(())
    }
}
