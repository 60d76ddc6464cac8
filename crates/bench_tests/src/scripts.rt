// Scripts over every pair of lines.
use crate::stage::{prints, script};
use std::fmt::Write;
use std::test::Fail;

// An open, a send with Exchange ID 0, the log-in lost, and a poll with nothing waiting.
#[test]
fn the_first_four_steps(rt: HostRuntime) -> Result<(), Fail> {
    let script = script(rt.alloc(), (512, 512), b"OSlP", &[(0, 0)])?;
    prints(
        &rt,
        rt.alloc(),
        script.as_slice(),
        "\
1 O 0 0 0 0 0
2 S 3 0 0 0 0
3 l 0 0 0 0 0
4 P 15 0 0 0 0
",
    )
}

// Opens, polls, timeouts and losses have no use for their arguments, nor has a spoil for the byte above its addend.
#[test]
fn argument_bits_that_are_ignored(rt: HostRuntime) -> Result<(), Fail> {
    let script = b"\x00\x0b\x02\x00\x02\x00OSlPSLTlXXo\
        \xff\xff\xff\xff\x00\x00\xff\xff\xff\xff\xff\xff\xff\xff\xff\xff\
        \xff\xff\xff\xff\x12\x34\x56\x78\xff\xff\xff\xff\x00\x00\x00\x01\
        \xff\xff\xff\x00\x00\x00\xff\x01\x00\x00\x00\x01";
    prints(
        &rt,
        rt.alloc(),
        script,
        "\
1 O 0 0 0 0 0
2 S 3 0 0 0 0
3 l 0 0 0 0 0
4 P 15 0 0 0 0
5 S 9 0 0 0 0
6 L 15 0 0 0 0
7 T 0 0 0 0 0
8 l 0 0 0 0 0
9 X 4 0 0 0 0
10 X 15 0 0 0 0
11 o 0 0 0 0 0
",
    )
}

// An end is logged in once both accepts are known, its own by an acknowledgement.
#[test]
fn a_log_in_with_three_log_ins(rt: HostRuntime) -> Result<(), Fail> {
    let script = script(
        rt.alloc(),
        (512, 300),
        b"oPppPSPsSpspPPppP",
        &[(1, 0), (1, 0), (1, 0), (2, 3)],
    )?;
    prints(
        &rt,
        rt.alloc(),
        script.as_slice(),
        "\
1 o 0 0 0 0 0
2 P 0 0 0 0 0
3 p 0 0 0 0 0
4 p 0 0 0 0 0
5 P 0 0 0 0 0
6 S 12 0 0 0 0
7 P 0 0 0 0 0
8 s 12 0 0 0 0
9 S 0 1 0 0 0
10 p 0 1 0 0 0
11 s 0 1 1 0 0
12 p 0 1 1 0 1
13 P 0 1 1 1 1
14 P 0 0 1 1 1
15 p 0 0 0 1 1
16 p 15 0 0 1 1
17 P 15 0 0 1 1
",
    )
}

// Neither first offer suits the other end, so that each sends three log-ins.
#[test]
fn both_ends_open_at_once(rt: HostRuntime) -> Result<(), Fail> {
    let script = script(
        rt.alloc(),
        (300, 512),
        b"OoPpPpPpPpPSpPSppPSsOo",
        &[(1, 0), (1, 300), (2, 301), (2, 301)],
    )?;
    prints(
        &rt,
        rt.alloc(),
        script.as_slice(),
        "\
1 O 0 0 0 0 0
2 o 0 0 0 0 0
3 P 0 0 0 0 0
4 p 0 0 0 0 0
5 P 0 0 0 0 0
6 p 0 0 0 0 0
7 P 0 0 0 0 0
8 p 0 0 0 0 0
9 P 0 0 0 0 0
10 p 0 0 0 0 0
11 P 0 0 0 0 0
12 S 12 0 0 0 0
13 p 0 0 0 0 0
14 P 0 0 0 0 0
15 S 0 1 0 0 0
16 p 0 1 0 0 0
17 p 0 1 0 0 1
18 P 0 0 0 0 1
19 S 13 0 0 0 1
20 s 13 0 0 0 1
21 O 11 0 0 0 1
22 o 11 0 0 0 1
",
    )
}

// An acknowledged log-in is sent again, and does not end the row.
#[test]
fn the_fourth_timeout_in_a_row(rt: HostRuntime) -> Result<(), Fail> {
    let script = script(rt.alloc(), (512, 512), b"OTTpPTTPTpt", &[])?;
    prints(
        &rt,
        rt.alloc(),
        script.as_slice(),
        "\
1 O 0 0 0 0 0
2 T 0 0 0 0 0
3 T 0 0 0 0 0
4 p 0 0 0 0 0
5 P 0 0 0 0 0
6 T 0 0 0 0 0
7 T 0 0 0 0 0
8 P 12 0 0 0 0
9 T 12 0 0 0 0
10 p 0 0 0 0 0
11 t 0 0 0 0 0
",
    )
}

// Three timeouts in Login, and then four more until the end is logged out.
#[test]
fn logging_in_ends_a_row(rt: HostRuntime) -> Result<(), Fail> {
    let script = script(rt.alloc(), (512, 300), b"oPTTTppPPSTTTTT", &[])?;
    prints(
        &rt,
        rt.alloc(),
        script.as_slice(),
        "\
1 o 0 0 0 0 0
2 P 0 0 0 0 0
3 T 0 0 0 0 0
4 T 0 0 0 0 0
5 T 0 0 0 0 0
6 p 0 0 0 0 0
7 p 0 0 0 0 0
8 P 0 0 0 0 0
9 P 0 0 0 0 0
10 S 0 1 0 0 0
11 T 0 1 0 0 0
12 T 0 1 0 0 0
13 T 0 1 0 0 0
14 T 0 1 0 0 0
15 T 12 1 0 0 0
",
    )
}

// The line is full when the controller acknowledges: the acknowledgement is lost, and the poll goes on.
#[test]
fn sixteen_wait(rt: HostRuntime) -> Result<(), Fail> {
    let script = script(
        rt.alloc(),
        (512, 300),
        b"oPppPPpSSSSTTTsPllllllllllllllllltPpp",
        &[(1, 0), (2, 0), (3, 0), (4, 0), (9, 0)],
    )?;
    prints(
        &rt,
        rt.alloc(),
        script.as_slice(),
        "\
1 o 0 0 0 0 0
2 P 0 0 0 0 0
3 p 0 0 0 0 0
4 p 0 0 0 0 0
5 P 0 0 0 0 0
6 P 0 0 0 0 0
7 p 0 0 0 0 0
8 S 0 1 0 0 0
9 S 0 2 0 0 0
10 S 0 3 0 0 0
11 S 0 4 0 0 0
12 T 0 4 0 0 0
13 T 0 4 0 0 0
14 T 0 4 0 0 0
15 s 0 4 1 0 0
16 P 0 4 1 1 0
17 l 0 4 1 1 0
18 l 0 4 1 1 0
19 l 0 4 1 1 0
20 l 0 4 1 1 0
21 l 0 4 1 1 0
22 l 0 4 1 1 0
23 l 0 4 1 1 0
24 l 0 4 1 1 0
25 l 0 4 1 1 0
26 l 0 4 1 1 0
27 l 0 4 1 1 0
28 l 0 4 1 1 0
29 l 0 4 1 1 0
30 l 0 4 1 1 0
31 l 0 4 1 1 0
32 l 0 4 1 1 0
33 l 15 4 1 1 0
34 t 0 4 1 1 0
35 P 0 4 1 1 0
36 p 0 4 0 1 0
37 p 15 4 0 1 0
",
    )
}

// The agreed size is 300 and the agreed offset 4.
#[test]
fn the_agreed_size_and_offset_at_their_edges(rt: HostRuntime) -> Result<(), Fail> {
    let script = script(
        rt.alloc(),
        (512, 300),
        b"oPppPPpSSSSSSSSSSSSpPSS",
        &[
            (1, 300),
            (1, 301),
            (1, 512),
            (1, 513),
            (0, 513),
            (65535, 0),
            (2, 0),
            (3, 300),
            (4, 0),
            (4, 301),
            (4, 513),
            (0, 301),
            (4, 0),
            (5, 0),
        ],
    )?;
    prints(
        &rt,
        rt.alloc(),
        script.as_slice(),
        "\
1 o 0 0 0 0 0
2 P 0 0 0 0 0
3 p 0 0 0 0 0
4 p 0 0 0 0 0
5 P 0 0 0 0 0
6 P 0 0 0 0 0
7 p 0 0 0 0 0
8 S 0 1 0 0 0
9 S 13 1 0 0 0
10 S 13 1 0 0 0
11 S 9 1 0 0 0
12 S 3 1 0 0 0
13 S 0 2 0 0 0
14 S 0 3 0 0 0
15 S 0 4 0 0 0
16 S 14 4 0 0 0
17 S 13 4 0 0 0
18 S 9 4 0 0 0
19 S 3 4 0 0 0
20 p 0 4 0 0 1
21 P 0 3 0 0 1
22 S 0 4 0 0 1
23 S 14 4 0 0 1
",
    )
}

// What is ahead of turn is neither handed up nor cleared; a repeat is cleared and not handed up again.
#[test]
fn repeats_and_numbers_ahead_of_turn(rt: HostRuntime) -> Result<(), Fail> {
    let script = script(
        rt.alloc(),
        (512, 300),
        b"oPppPPpSSlpPTppPPSpLTpP",
        &[(1, 0), (2, 0), (3, 0)],
    )?;
    prints(
        &rt,
        rt.alloc(),
        script.as_slice(),
        "\
1 o 0 0 0 0 0
2 P 0 0 0 0 0
3 p 0 0 0 0 0
4 p 0 0 0 0 0
5 P 0 0 0 0 0
6 P 0 0 0 0 0
7 p 0 0 0 0 0
8 S 0 1 0 0 0
9 S 0 2 0 0 0
10 l 0 2 0 0 0
11 p 0 2 0 0 0
12 P 0 2 0 0 0
13 T 0 2 0 0 0
14 p 0 2 0 0 1
15 p 0 2 0 0 2
16 P 0 1 0 0 2
17 P 0 0 0 0 2
18 S 0 1 0 0 2
19 p 0 1 0 0 3
20 L 0 1 0 0 3
21 T 0 1 0 0 3
22 p 0 1 0 0 3
23 P 0 0 0 0 3
",
    )
}

// It is answered with 06h, and taken when it comes again.
#[test]
fn a_record_that_comes_before_the_log_in_is_complete(rt: HostRuntime) -> Result<(), Fail> {
    let script = script(rt.alloc(), (512, 300), b"oPppPPlSpPstPppTpP", &[])?;
    prints(
        &rt,
        rt.alloc(),
        script.as_slice(),
        "\
1 o 0 0 0 0 0
2 P 0 0 0 0 0
3 p 0 0 0 0 0
4 p 0 0 0 0 0
5 P 0 0 0 0 0
6 P 0 0 0 0 0
7 l 0 0 0 0 0
8 S 0 1 0 0 0
9 p 0 1 0 0 0
10 P 0 1 0 0 0
11 s 12 1 0 0 0
12 t 0 1 0 0 0
13 P 0 1 0 0 0
14 p 0 1 0 0 0
15 p 15 1 0 0 0
16 T 0 1 0 0 0
17 p 0 1 0 0 1
18 P 0 0 0 0 1
",
    )
}

// Log-in and record have the same number.
#[test]
fn the_acknowledgement_of_a_repeated_log_in_clears_no_record(rt: HostRuntime) -> Result<(), Fail> {
    let script = script(rt.alloc(), (512, 300), b"oPTpppPPSPppP", &[(5, 0)])?;
    prints(
        &rt,
        rt.alloc(),
        script.as_slice(),
        "\
1 o 0 0 0 0 0
2 P 0 0 0 0 0
3 T 0 0 0 0 0
4 p 0 0 0 0 0
5 p 0 0 0 0 0
6 p 0 0 0 0 0
7 P 0 0 0 0 0
8 P 0 0 0 0 0
9 S 0 1 0 0 0
10 P 0 1 0 0 0
11 p 0 1 0 0 0
12 p 0 1 0 0 1
13 P 0 0 0 0 1
",
    )
}

#[test]
fn the_lowest_limits(rt: HostRuntime) -> Result<(), Fail> {
    let script = script(
        rt.alloc(),
        (270, 270),
        b"oPppPPpSSpPs",
        &[(1, 270), (1, 271), (1, 271)],
    )?;
    prints(
        &rt,
        rt.alloc(),
        script.as_slice(),
        "\
1 o 0 0 0 0 0
2 P 0 0 0 0 0
3 p 0 0 0 0 0
4 p 0 0 0 0 0
5 P 0 0 0 0 0
6 P 0 0 0 0 0
7 p 0 0 0 0 0
8 S 0 1 0 0 0
9 S 13 1 0 0 0
10 p 0 1 0 0 1
11 P 0 0 0 0 1
12 s 13 0 0 0 1
",
    )
}

#[test]
fn the_highest_limits(rt: HostRuntime) -> Result<(), Fail> {
    let script = script(
        rt.alloc(),
        (512, 512),
        b"oPppPPpSSpPsPp",
        &[(1, 512), (1, 513), (1, 512)],
    )?;
    prints(
        &rt,
        rt.alloc(),
        script.as_slice(),
        "\
1 o 0 0 0 0 0
2 P 0 0 0 0 0
3 p 0 0 0 0 0
4 p 0 0 0 0 0
5 P 0 0 0 0 0
6 P 0 0 0 0 0
7 p 0 0 0 0 0
8 S 0 1 0 0 0
9 S 9 1 0 0 0
10 p 0 1 0 0 1
11 P 0 0 0 0 1
12 s 0 0 1 0 1
13 P 0 0 1 1 1
14 p 0 0 0 1 1
",
    )
}

// In turn the first byte, the check, an acknowledgement's check, the size in three ways, and an acknowledgement.
#[test]
fn spoiled_blocks(rt: HostRuntime) -> Result<(), Fail> {
    let script = script(
        rt.alloc(),
        (512, 300),
        b"XXXXoXTptPpxPsTpXPSTpppPSxPTxPTxPTpX",
        &[
            (0, 0),
            (0, 1),
            (0, 65280),
            (65535, 0),
            (13, 1),
            (12, 255),
            (1, 0),
            (65535, 1),
            (1, 0),
            (1, 5),
            (4, 1),
            (5, 252),
            (4, 2),
            (0, 1),
        ],
    )?;
    prints(
        &rt,
        rt.alloc(),
        script.as_slice(),
        "\
1 X 4 0 0 0 0
2 X 15 0 0 0 0
3 X 4 0 0 0 0
4 X 4 0 0 0 0
5 o 0 0 0 0 0
6 X 0 0 0 0 0
7 T 12 0 0 0 0
8 p 0 0 0 0 0
9 t 0 0 0 0 0
10 P 0 0 0 0 0
11 p 0 0 0 0 0
12 x 0 0 0 0 0
13 P 0 0 0 0 0
14 s 12 0 0 0 0
15 T 0 0 0 0 0
16 p 0 0 0 0 0
17 X 0 0 0 0 0
18 P 0 0 0 0 0
19 S 12 0 0 0 0
20 T 0 0 0 0 0
21 p 0 0 0 0 0
22 p 0 0 0 0 0
23 p 0 0 0 0 0
24 P 0 0 0 0 0
25 S 0 1 0 0 0
26 x 0 1 0 0 0
27 P 0 1 0 0 0
28 T 0 1 0 0 0
29 x 0 1 0 0 0
30 P 0 1 0 0 0
31 T 0 1 0 0 0
32 x 0 1 0 0 0
33 P 0 1 0 0 0
34 T 0 1 0 0 0
35 p 0 1 0 0 1
36 X 0 1 0 0 1
",
    )
}

#[test]
fn input_goes_before_state(rt: HostRuntime) -> Result<(), Fail> {
    let script = script(
        rt.alloc(),
        (512, 512),
        b"SSSSTPXXLOOSstpot",
        &[
            (0, 600),
            (1, 600),
            (1, 513),
            (1, 512),
            (0, 0),
            (0, 1),
            (1, 512),
            (1, 512),
        ],
    )?;
    prints(
        &rt,
        rt.alloc(),
        script.as_slice(),
        "\
1 S 3 0 0 0 0
2 S 9 0 0 0 0
3 S 9 0 0 0 0
4 S 12 0 0 0 0
5 T 12 0 0 0 0
6 P 15 0 0 0 0
7 X 4 0 0 0 0
8 X 15 0 0 0 0
9 L 15 0 0 0 0
10 O 0 0 0 0 0
11 O 11 0 0 0 0
12 S 12 0 0 0 0
13 s 12 0 0 0 0
14 t 12 0 0 0 0
15 p 0 0 0 0 0
16 o 11 0 0 0 0
17 t 0 0 0 0 0
",
    )
}

// Records 1 to 253, each sent, handed up and cleared before the next.
fn one_by_one(letters: &mut Vec<u8>, expected: &mut String) -> Result<(), Fail> {
    for k in 1..254u32 {
        let (s, p, c, before) = (5 + 3 * k, 6 + 3 * k, 7 + 3 * k, k - 1);
        letters.extend_from_slice(b"SpP")?;
        writeln!(expected, "{s} S 0 1 0 0 {before}")?;
        writeln!(expected, "{p} p 0 1 0 0 {k}")?;
        writeln!(expected, "{c} P 0 0 0 0 {k}")?;
    }
    Ok(())
}

// Numbers go on from 255 to 1: repeats across the wrap, and an acknowledgement of 1 that clears 254, 255 and 1.
#[test]
fn a_full_wrap(rt: HostRuntime) -> Result<(), Fail> {
    let mut letters = b"oPppPPp".to_vec(rt.alloc())?;
    let mut expected = String::from_str(
        rt.alloc(),
        "\
1 o 0 0 0 0 0
2 P 0 0 0 0 0
3 p 0 0 0 0 0
4 p 0 0 0 0 0
5 P 0 0 0 0 0
6 P 0 0 0 0 0
7 p 0 0 0 0 0
",
    )?;
    one_by_one(&mut letters, &mut expected)?;
    letters.extend_from_slice(b"SSSSppppLLLLTppppLLPPSpP")?;
    expected.push_str(
        "\
767 S 0 1 0 0 253
768 S 0 2 0 0 253
769 S 0 3 0 0 253
770 S 0 4 0 0 253
771 p 0 4 0 0 254
772 p 0 4 0 0 255
773 p 0 4 0 0 256
774 p 0 4 0 0 257
775 L 0 4 0 0 257
776 L 0 4 0 0 257
777 L 0 4 0 0 257
778 L 0 4 0 0 257
779 T 0 4 0 0 257
780 p 0 4 0 0 257
781 p 0 4 0 0 257
782 p 0 4 0 0 257
783 p 0 4 0 0 257
784 L 0 4 0 0 257
785 L 0 4 0 0 257
786 P 0 1 0 0 257
787 P 0 0 0 0 257
788 S 0 1 0 0 257
789 p 0 1 0 0 258
790 P 0 0 0 0 258
",
    )?;
    let script = script(rt.alloc(), (512, 300), letters.as_slice(), &[])?;
    prints(&rt, rt.alloc(), script.as_slice(), expected.as_str())
}
