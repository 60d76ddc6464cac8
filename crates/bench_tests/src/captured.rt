// What an end puts on a wire line, read as a capture is.
use crate::stage::wires;
use checks::sum::SumCheck;
use end::end::End;
use login::Parameters;
use rules::seat::Side;
use std::test::Fail;
use survey::item::Item;
use survey::pass::survey;
use wire_line::WireLine;

// The frame of a log-in of 13 bytes, one of them escaped, has 16.
#[test]
fn a_log_in_and_its_resend(rt: HostRuntime) -> Result<(), Fail> {
    let limits = Parameters {
        offset: 8,
        payload: 512,
        baud: 96,
    };
    let mut end = End::new(rt.alloc(), Side::Controller, limits)?;
    let mut line = wires(rt.alloc())?;
    let store = vec![in rt.alloc(); 0; 4096]?;
    let mut scratch = [0; 520];
    assert_eq!(rt;
        end.open::<WireLine, SumCheck>(store.as_slice(), &mut line, &mut scratch)?,
        1
    );
    assert_eq!(rt;
        end.timeout::<WireLine, SumCheck>(store.as_slice(), &mut line, &mut scratch)?,
        1
    );
    let mut bytes = [0; 64];
    let n = line.copy_bytes(&mut bytes);
    assert_eq!(rt; n, 32);
    let items: Vec<Item> = survey::<SumCheck>(rt.alloc(), &bytes[0..n])?;
    assert!(rt; items.len() == 2);
    assert!(rt; matches!(items[0], Item::Block(block) if block.offset == 0 && block.length == 13));
    assert!(rt; matches!(items[1], Item::Block(block) if block.offset == 16 && block.length == 13));
    Ok(())
}
