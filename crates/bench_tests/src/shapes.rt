// Scripts that are refused before their first step, and the nearest that are not.
use crate::stage::{prints, script};
use std::fmt::Write;
use std::test::Fail;

// Too short and too long, also with an unknown letter or a limit out of range; the numbers have their high bytes first.
#[test]
fn wrong_lengths(rt: HostRuntime) -> Result<(), Fail> {
    let shapes: [&[u8]; 9] = [
        b"",
        b"\x00\x00\x02\x00\x02",
        b"\x00\x00\x02\x00\x02\x00O",
        b"\x00\x01\x02\x00\x02\x00O\x00\x00\x00",
        b"\x00\x01\x02\x00\x02\x00O\x00\x00\x00\x00\x00",
        b"\x01\x00\x00\x02\x00\x02O\x00\x00\x00\x00",
        b"\xff\xff\x02\x00\x02\x00",
        b"\x00\x01\x02\x00\x02\x00A\x00\x00\x00",
        b"\x00\x01\x00\x00\x00\x00A\x00\x00\x00\x00\x00",
    ];
    for shape in shapes {
        prints(&rt, rt.alloc(), shape, "refused 7\n")?;
    }
    Ok(())
}

// The last letter counts as much as the first, and letters before limits.
#[test]
fn unknown_letters(rt: HostRuntime) -> Result<(), Fail> {
    let shapes: [&[u8]; 5] = [
        b"\x00\x01\x02\x00\x02\x00A\x00\x00\x00\x00",
        b"\x00\x01\x02\x00\x02\x00\x00\x00\x00\x00\x00",
        b"\x00\x01\x02\x00\x02\x00\xcf\x00\x00\x00\x00",
        b"\x00\x02\x02\x00\x02\x00OQ\x00\x00\x00\x00\x00\x00\x00\x00",
        b"\x00\x01\x01\x0d\x02\x00A\x00\x00\x00\x00",
    ];
    for shape in shapes {
        prints(&rt, rt.alloc(), shape, "refused 8\n")?;
    }
    Ok(())
}

#[test]
fn limits_out_of_range(rt: HostRuntime) -> Result<(), Fail> {
    for limits in [
        (269, 512),
        (512, 269),
        (513, 512),
        (512, 513),
        (0, 0),
        (65535, 65535),
    ] {
        let opens = script(rt.alloc(), limits, b"O", &[])?;
        prints(&rt, rt.alloc(), opens.as_slice(), "refused 2\n")?;
        let empty = script(rt.alloc(), limits, b"", &[])?;
        prints(&rt, rt.alloc(), empty.as_slice(), "refused 2\n")?;
    }
    Ok(())
}

#[test]
fn limits_in_range(rt: HostRuntime) -> Result<(), Fail> {
    for limits in [(270, 512), (512, 270), (270, 270), (512, 512)] {
        let opens = script(rt.alloc(), limits, b"O", &[])?;
        prints(&rt, rt.alloc(), opens.as_slice(), "1 O 0 0 0 0 0\n")?;
        let empty = script(rt.alloc(), limits, b"", &[])?;
        prints(&rt, rt.alloc(), empty.as_slice(), "")?;
    }
    Ok(())
}

#[test]
fn the_most_steps_there_can_be(rt: HostRuntime) -> Result<(), Fail> {
    let mut expected = String::new(rt.alloc());
    for k in 1..10_001u32 {
        writeln!(expected, "{k} L 15 0 0 0 0")?;
    }
    let letters = vec![in rt.alloc(); b'L'; 10_001]?;
    let most = script(rt.alloc(), (512, 512), &letters[0..10_000], &[])?;
    prints(&rt, rt.alloc(), most.as_slice(), expected.as_str())?;
    let above = script(rt.alloc(), (512, 512), letters.as_slice(), &[])?;
    prints(&rt, rt.alloc(), above.as_slice(), "refused 7\n")
}
