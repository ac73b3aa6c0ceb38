// Lines of a script that are wrong, and scripts as edit files and back.
use commands::values::Wrong;
use script::edits::{Damage, Packing, unpack};
use script::reading::read_line;
use std::alloc::Global;
use std::test::Fail;

// What is wrong with a line, if anything is.
fn fault(heap: Global, line: &[u8]) -> Option<Wrong> {
    read_line(heap, line).err()
}

#[test]
fn wrong_lines(rt: HostRuntime) {
    let heap = rt.alloc();
    assert_eq!(rt; fault(heap, b"plase 0.1 1.1"), Some(Wrong::Command));
    assert_eq!(rt; fault(heap, b"place 0.1"), Some(Wrong::Missing));
    assert_eq!(rt; fault(heap, b"list 0.1"), Some(Wrong::Surplus));
    assert_eq!(rt; fault(heap, b"place 0.1 1"), Some(Wrong::Move));
    assert_eq!(rt; fault(heap, b"test 0.1 .1"), Some(Wrong::Move));
    assert_eq!(rt; fault(heap, b"cell 0 -1 0"), Some(Wrong::Number));
    assert_eq!(rt; fault(heap, b"board 3 3 dense loose"), Some(Wrong::Table));
    assert_eq!(rt; fault(heap, b"board 3 3 plain tight"), Some(Wrong::Store));
    assert_eq!(rt; fault(heap, b" \t # place\r\n"), None, "a remark");
    assert_eq!(rt;
        fault(heap, b"push  99999999999.0 "),
        None,
        "refused, and not wrong"
    );
}

// Adds the command of a line, if it has one, to the file.
fn packed(heap: Global, packing: &mut Packing, line: &[u8]) -> Result<(), Wrong> {
    match read_line(heap, line)? {
        Some(command) => packing.take(command),
        None => Ok(()),
    }
}

#[test]
fn commands_that_no_edit_file_has(rt: HostRuntime) {
    let heap = rt.alloc();
    let mut packing = Packing::new(heap);
    assert_eq!(rt;
        packed(heap, &mut packing, b"place 0.0 1.0"),
        Err(Wrong::NoBoard)
    );
    assert_eq!(rt;
        packed(heap, &mut packing, b"board 3 3 plain loose"),
        Ok(())
    );
    assert_eq!(rt;
        packed(heap, &mut packing, b"board 3 3 plain loose"),
        Err(Wrong::SecondBoard)
    );
    assert_eq!(rt; packed(heap, &mut packing, b"list"), Err(Wrong::Unpackable));
    assert_eq!(rt;
        packed(heap, &mut packing, b"cell 0 1 0"),
        Err(Wrong::Unpackable)
    );
    assert_eq!(rt;
        packed(heap, &mut packing, b"place 16.0 1.0"),
        Err(Wrong::NoCode)
    );
    assert_eq!(rt;
        packed(heap, &mut packing, b"first-after 0.0 65536"),
        Err(Wrong::NoCode)
    );
    assert_eq!(rt;
        packed(heap, &mut packing, b"first-after 15.4095 65535"),
        Ok(()),
        "as an edit file has it"
    );
}

// A place, a removal and every question on two shuttles, with numbers that the board does not have.
const STEPS: [u8; 38] = [
    0, 2, 16, 0, 0, 5, 0, 8, 0, 1, 0, 1, 16, 1, 0, 2, 255, 255, 0, 0, 0, 3, 0, 0, 31, 255, 0, 4, 0,
    0, 255, 255, 0, 5, 16, 0, 0, 0,
];

#[test]
fn there_and_back(rt: HostRuntime) -> Result<(), Fail> {
    let heap = rt.alloc();
    let script = unpack(heap, &STEPS)?;
    assert!(rt;
        script.as_str()
            == "board 2 4096 plain loose\nplace 0.1 1.1\nremove 15.4095 0.0\nbefore 0.0 1.4095\nfirst-after 0.0 65535\nlast-before 1.0 0\n"
    );
    let mut packing = Packing::new(heap);
    for line in script.as_str().lines() {
        assert_eq!(rt; packed(heap, &mut packing, line.as_bytes()), Ok(()));
    }
    let file = packing.finish(heap)?;
    assert!(rt; file.as_slice() == STEPS.as_slice());
    Ok(())
}

// Whether the file is refused as badly formed.
fn is_badly_formed(heap: Global, file: &[u8]) -> bool {
    matches!(unpack(heap, file), Err(Damage::Form))
}

#[test]
fn damaged_edit_files(rt: HostRuntime) {
    let heap = rt.alloc();
    assert!(rt; is_badly_formed(heap, &[]));
    assert!(rt; is_badly_formed(heap, &STEPS[0..37]));
    let mut file = STEPS;
    file[15] = 6;
    assert!(rt;
        matches!(unpack(heap, &file), Err(Damage::Step(2))),
        "steps are counted from 1"
    );
}
