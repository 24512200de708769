use super::*;
use node_tree::OwnedList;
use std::alloc::{AllocError, Global};
use std::test::Fail;

/// A device with these holding registers, ten coils and no inputs.
fn device(alloc: Global, holding: &[u16], silent: Option<u16>) -> Result<Sim, AllocError> {
    let coils = [
        true, false, true, true, false, false, true, true, true, false,
    ];
    Ok(Sim::new(Image {
        holding: OwnedList::from_slice(alloc, holding)?,
        input: OwnedList::new(alloc),
        coils: OwnedList::from_slice(alloc, &coils)?,
        discrete: OwnedList::new(alloc),
        silent,
    }))
}

/// Whether the device's answer is these bytes.
fn says(alloc: Global, device: &Sim, frame: &[u8], wanted: &[u8]) -> Result<bool, AllocError> {
    match device.answer(alloc, frame)? {
        Some(said) => Ok(said.as_slice() == wanted),
        None => Ok(wanted.is_empty()),
    }
}

/// Each request with its answer, over the holding registers 10 and 258; an empty answer is none.
const ROWS: [(&[u8], &[u8]); 19] = [
    (
        &[0, 1, 0, 0, 0, 6, 1, 3, 0, 0, 0, 2],
        &[0, 1, 0, 0, 0, 7, 1, 3, 4, 0, 10, 1, 2],
    ),
    (
        &[0, 1, 0, 0, 0, 6, 1, 3, 0, 0, 0, 3],
        &[0, 1, 0, 0, 0, 3, 1, 0x83, 2],
    ),
    (
        &[0, 1, 0, 0, 0, 6, 1, 3, 0, 0, 0, 0],
        &[0, 1, 0, 0, 0, 3, 1, 0x83, 3],
    ),
    (
        &[0, 1, 0, 0, 0, 6, 1, 3, 0, 0, 0, 126],
        &[0, 1, 0, 0, 0, 3, 1, 0x83, 3],
    ),
    (
        &[0, 2, 0, 0, 0, 6, 9, 1, 0, 0, 0, 10],
        &[0, 2, 0, 0, 0, 5, 9, 1, 2, 0xCD, 1],
    ),
    (
        &[0, 2, 0, 0, 0, 6, 9, 1, 0, 1, 0, 3],
        &[0, 2, 0, 0, 0, 4, 9, 1, 1, 6],
    ),
    (
        &[0, 2, 0, 0, 0, 6, 9, 1, 0, 0, 7, 0xD1],
        &[0, 2, 0, 0, 0, 3, 9, 0x81, 3],
    ),
    (
        &[0, 2, 0, 0, 0, 6, 9, 1, 0, 0, 7, 0xD0],
        &[0, 2, 0, 0, 0, 3, 9, 0x81, 2],
    ),
    (
        &[0, 3, 0, 0, 0, 6, 1, 2, 0, 0, 0, 1],
        &[0, 3, 0, 0, 0, 3, 1, 0x82, 2],
    ),
    (
        &[0, 3, 0, 0, 0, 6, 1, 4, 0, 0, 0, 1],
        &[0, 3, 0, 0, 0, 3, 1, 0x84, 2],
    ),
    (
        &[0, 4, 0, 0, 0, 6, 1, 5, 0, 9, 0xFF, 0],
        &[0, 4, 0, 0, 0, 6, 1, 5, 0, 9, 0xFF, 0],
    ),
    (
        &[0, 4, 0, 0, 0, 6, 1, 5, 0, 9, 0xFF, 1],
        &[0, 4, 0, 0, 0, 3, 1, 0x85, 3],
    ),
    (
        &[0, 4, 0, 0, 0, 6, 1, 6, 0, 1, 1, 2],
        &[0, 4, 0, 0, 0, 6, 1, 6, 0, 1, 1, 2],
    ),
    (
        &[0, 5, 0, 0, 0, 9, 1, 15, 0, 0, 0, 10, 2, 0xCD, 1],
        &[0, 5, 0, 0, 0, 6, 1, 15, 0, 0, 0, 10],
    ),
    (
        &[0, 5, 0, 0, 0, 8, 1, 15, 0, 0, 0, 10, 1, 0xCD],
        &[0, 5, 0, 0, 0, 3, 1, 0x8F, 3],
    ),
    (
        &[0, 6, 0, 0, 0, 11, 1, 16, 0, 0, 0, 2, 4, 0, 10, 1, 2],
        &[0, 6, 0, 0, 0, 6, 1, 16, 0, 0, 0, 2],
    ),
    (&[0, 6, 0, 0, 0, 10, 1, 16, 0, 0, 0, 2, 4, 0, 10, 1, 2], &[]),
    (&[0, 1, 0, 0, 0, 6, 1, 0x83, 0, 0, 0, 2], &[]),
    (&[0, 1, 0, 1, 0, 6, 1, 3, 0, 0, 0, 2], &[]),
];

#[test]
fn requests_are_answered(rt: HostRuntime) -> Result<(), Fail> {
    let device = device(rt.alloc(), &[10, 258], None)?;
    for (request, wanted) in ROWS {
        assert!(rt; says(rt.alloc(), &device, request, wanted)?, "{request:?}");
    }
    Ok(())
}

#[test]
fn one_register_has_no_second_one(rt: HostRuntime) -> Result<(), Fail> {
    let device = device(rt.alloc(), &[10], None)?;
    let request = [0, 1, 0, 0, 0, 6, 1, 3, 0, 0, 0, 2];
    assert!(rt;
        says(
            rt.alloc(),
            &device,
            &request,
            &[0, 1, 0, 0, 0, 3, 1, 0x83, 2]
        )?
    );
    Ok(())
}

#[test]
fn a_silent_address_is_not_answered(rt: HostRuntime) -> Result<(), Fail> {
    let device = device(rt.alloc(), &[10, 258], Some(0))?;
    assert!(rt;
        says(
            rt.alloc(),
            &device,
            &[0, 1, 0, 0, 0, 6, 1, 3, 0, 0, 0, 0],
            &[]
        )?
    );
    let behind = [0, 1, 0, 0, 0, 6, 1, 3, 0, 1, 0, 1];
    assert!(rt;
        says(
            rt.alloc(),
            &device,
            &behind,
            &[0, 1, 0, 0, 0, 5, 1, 3, 2, 1, 2]
        )?
    );
    Ok(())
}
