use crate::{TagFault, TagKind, TagWhy, Url, UrlFault, print_tag, read_tag, read_url};
use std::test::Fail;
use wire_frames::{Area, Item, PlcType};

/// Tags, each in the form that is printed, and the items that they name: areas, types and counts at their ends.
const TAGS: [(&str, Area, u16, PlcType, u16); 26] = [
    ("coil:1:BOOL", Area::Coil, 0, PlcType::Bool, 1),
    ("coil:65536:BOOL", Area::Coil, 65535, PlcType::Bool, 1),
    ("coil:1:BOOL[65535]", Area::Coil, 0, PlcType::Bool, 65535),
    ("coil:2:BOOL[65535]", Area::Coil, 1, PlcType::Bool, 65535),
    ("coil:10:BOOL[2]", Area::Coil, 9, PlcType::Bool, 2),
    (
        "discrete-input:1:BOOL",
        Area::DiscreteInput,
        0,
        PlcType::Bool,
        1,
    ),
    (
        "discrete-input:65535:BOOL[2]",
        Area::DiscreteInput,
        65534,
        PlcType::Bool,
        2,
    ),
    (
        "input-register:1:BOOL",
        Area::InputRegister,
        0,
        PlcType::Bool,
        1,
    ),
    (
        "input-register:65536:WORD",
        Area::InputRegister,
        65535,
        PlcType::Word,
        1,
    ),
    (
        "input-register:65533:LINT",
        Area::InputRegister,
        65532,
        PlcType::Lint,
        1,
    ),
    (
        "holding-register:65536:BOOL",
        Area::HoldingRegister,
        65535,
        PlcType::Bool,
        1,
    ),
    (
        "holding-register:65536:WORD",
        Area::HoldingRegister,
        65535,
        PlcType::Word,
        1,
    ),
    (
        "holding-register:65536:INT",
        Area::HoldingRegister,
        65535,
        PlcType::Int,
        1,
    ),
    (
        "holding-register:65536:UINT",
        Area::HoldingRegister,
        65535,
        PlcType::Uint,
        1,
    ),
    (
        "holding-register:65535:DWORD",
        Area::HoldingRegister,
        65534,
        PlcType::Dword,
        1,
    ),
    (
        "holding-register:65535:DINT",
        Area::HoldingRegister,
        65534,
        PlcType::Dint,
        1,
    ),
    (
        "holding-register:65535:UDINT",
        Area::HoldingRegister,
        65534,
        PlcType::Udint,
        1,
    ),
    (
        "holding-register:65535:REAL",
        Area::HoldingRegister,
        65534,
        PlcType::Real,
        1,
    ),
    (
        "holding-register:65533:LWORD",
        Area::HoldingRegister,
        65532,
        PlcType::Lword,
        1,
    ),
    (
        "holding-register:65533:LINT",
        Area::HoldingRegister,
        65532,
        PlcType::Lint,
        1,
    ),
    (
        "holding-register:65533:ULINT",
        Area::HoldingRegister,
        65532,
        PlcType::Ulint,
        1,
    ),
    (
        "holding-register:65533:LREAL",
        Area::HoldingRegister,
        65532,
        PlcType::Lreal,
        1,
    ),
    (
        "holding-register:2:UINT[65535]",
        Area::HoldingRegister,
        1,
        PlcType::Uint,
        65535,
    ),
    (
        "holding-register:1:UINT[2001]",
        Area::HoldingRegister,
        0,
        PlcType::Uint,
        2001,
    ),
    (
        "holding-register:1:UDINT[32768]",
        Area::HoldingRegister,
        0,
        PlcType::Udint,
        32768,
    ),
    (
        "holding-register:1:LREAL[16384]",
        Area::HoldingRegister,
        0,
        PlcType::Lreal,
        16384,
    ),
];

#[test]
fn tags_name_items_and_are_printed_as_they_are(rt: HostRuntime) -> Result<(), Fail> {
    for (text, area, start, kind, count) in TAGS {
        let item = read_tag(TagKind::Modbus, text.as_bytes())?;
        let want = Item {
            area,
            block: 0,
            start,
            bit: 0,
            kind,
            count,
        };
        assert_eq!(rt; item, want, "{text}");
        let mut to = [b'~'; 40];
        let length = print_tag(&item, &mut to);
        assert_eq!(rt; &to[..length], text.as_bytes(), "{text}");
    }
    Ok(())
}

#[test]
fn a_count_of_1_may_be_written_and_is_not_printed(rt: HostRuntime) -> Result<(), Fail> {
    let item = read_tag(TagKind::Modbus, b"holding-register:65533:LREAL[1]")?;
    let mut to = [b'~'; 40];
    let length = print_tag(&item, &mut to);
    assert_eq!(rt; &to[..length], b"holding-register:65533:LREAL".as_slice());
    assert_eq!(rt; to[39], b'~');
    Ok(())
}

/// Texts that are no tags, with the places and parts of their faults.
const NO_TAGS: [(&str, u32, TagWhy); 43] = [
    ("", 0, TagWhy::End),
    ("Coil:1:BOOL", 0, TagWhy::Area),
    ("coil", 4, TagWhy::End),
    ("coil;1", 4, TagWhy::Area),
    ("coils:1:BOOL", 4, TagWhy::Area),
    ("holding-input:1:INT", 8, TagWhy::Area),
    ("coil:", 5, TagWhy::End),
    ("coil:0:BOOL", 5, TagWhy::Number),
    ("coil:01:BOOL", 5, TagWhy::Number),
    ("coil:-1:BOOL", 5, TagWhy::Number),
    ("coil:+1:BOOL", 5, TagWhy::Number),
    ("coil::BOOL", 5, TagWhy::Number),
    ("coil:1;BOOL", 6, TagWhy::Number),
    ("coil:1", 6, TagWhy::End),
    ("coil:65537:BOOL", 9, TagWhy::Number),
    ("coil:100000:BOOL", 10, TagWhy::Number),
    ("coil:1:", 7, TagWhy::End),
    ("coil:1::", 7, TagWhy::Type),
    ("coil:1:INT", 7, TagWhy::Type),
    ("coil:1:bool", 7, TagWhy::Type),
    ("coil:1:BOO", 10, TagWhy::End),
    ("coil:1:BOO]", 10, TagWhy::Type),
    ("holding-register:1:BYTE", 20, TagWhy::Type),
    ("holding-register:1:SINT", 19, TagWhy::Type),
    ("holding-register:1:USINT", 20, TagWhy::Type),
    ("holding-register:65536:DINT", 23, TagWhy::Type),
    ("holding-register:65536:UDINT", 24, TagWhy::Type),
    ("holding-register:65534:LINT", 23, TagWhy::Type),
    ("coil:1:BOOL(2)", 11, TagWhy::End),
    ("coil:1:BOOLS", 11, TagWhy::End),
    ("coil:1:BOOL[", 12, TagWhy::End),
    ("coil:1:BOOL[]", 12, TagWhy::Count),
    ("coil:1:BOOL[0]", 12, TagWhy::Count),
    ("coil:1:BOOL[01]", 12, TagWhy::Count),
    ("coil:1:BOOL[2", 13, TagWhy::End),
    ("coil:1:BOOL[2)", 13, TagWhy::Count),
    ("coil:1:BOOL[2]x", 14, TagWhy::End),
    ("coil:1:BOOL[65536]", 16, TagWhy::Count),
    ("coil:65535:BOOL[3]", 16, TagWhy::Count),
    ("holding-register:1:BOOL[2]", 24, TagWhy::Count),
    ("holding-register:1:UINT[65536]", 28, TagWhy::Count),
    ("holding-register:65530:UINT[8]", 28, TagWhy::Count),
    ("holding-register:1:LREAL[16385]", 29, TagWhy::Count),
];

#[test]
fn faults_of_tags_stand_at_their_places(rt: HostRuntime) {
    for (text, place, why) in NO_TAGS {
        let fault = read_tag(TagKind::Modbus, text.as_bytes()).err();
        assert_eq!(rt; fault, Some(TagFault { place, why }), "{text}");
    }
}

#[test]
fn s7_has_no_tags_so_far(rt: HostRuntime) {
    for (text, why) in [
        ("%MW0:INT", TagWhy::Area),
        ("coil:1:BOOL", TagWhy::Area),
        ("", TagWhy::End),
    ] {
        let fault = read_tag(TagKind::S7, text.as_bytes()).err();
        assert_eq!(rt; fault, Some(TagFault { place: 0, why }), "{text}");
    }
}

/// URLs, and the hosts, ports and units that they name.
const URLS: [(&str, &str, u16, u8); 7] = [
    ("modbus-tcp://h", "h", 502, 1),
    ("modbus-tcp://plc-3.Example.:1", "plc-3.Example.", 1, 1),
    ("modbus-tcp://0:65535", "0", 65535, 1),
    ("modbus-tcp://-.?unit-identifier=0", "-.", 502, 0),
    (
        "modbus-tcp://azAZ09?unit-identifier=255",
        "azAZ09",
        502,
        255,
    ),
    ("modbus-tcp://h:502?unit-identifier=1", "h", 502, 1),
    ("modbus-tcp://h:10?unit-identifier=10", "h", 10, 10),
];

#[test]
fn urls_name_devices(rt: HostRuntime) -> Result<(), Fail> {
    for (text, want, want_port, want_unit) in URLS {
        match read_url(rt.alloc(), text.as_bytes())? {
            Url::Modbus { host, port, unit } => {
                assert_eq!(rt; host.as_slice(), want.as_bytes(), "{text}");
                assert_eq!(rt; (port, unit), (want_port, want_unit), "{text}");
            }
            Url::S7 { .. } => assert!(rt; false, "{text}"),
        }
    }
    Ok(())
}

/// Texts that are no URLs, with the places of their faults.
const NO_URLS: [(&str, u32); 21] = [
    ("", 0),
    ("s7://h", 0),
    ("Modbus-tcp://h", 0),
    ("modbus-tcp:/h", 12),
    ("modbus-tcp://", 13),
    ("modbus-tcp://:502", 13),
    ("modbus-tcp://h_", 14),
    ("modbus-tcp://h/", 14),
    ("modbus-tcp://h:", 15),
    ("modbus-tcp://h:0", 15),
    ("modbus-tcp://h:0502", 15),
    ("modbus-tcp://h:65536", 19),
    ("modbus-tcp://h:1x", 16),
    ("modbus-tcp://h:1:", 16),
    ("modbus-tcp://h?", 15),
    ("modbus-tcp://h?unit=1", 19),
    ("modbus-tcp://h?unit-identifier=", 31),
    ("modbus-tcp://h?unit-identifier=-1", 31),
    ("modbus-tcp://h?unit-identifier=01", 32),
    ("modbus-tcp://h?unit-identifier=256", 33),
    ("modbus-tcp://h:502?unit-identifier=1&", 36),
];

#[test]
fn faults_of_urls_stand_at_their_places(rt: HostRuntime) {
    for (text, place) in NO_URLS {
        let told = match read_url(rt.alloc(), text.as_bytes()) {
            Err(UrlFault::At(place)) => Some(place),
            _ => None,
        };
        assert_eq!(rt; told, Some(place), "{text}");
    }
}
