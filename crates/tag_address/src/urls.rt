//! URLs of devices.

ghost use Rattle.std.specs.Prelude.{◌≡◌, ◌⊎◌, ℕ, ◌-◌, ◌≤◌, ◌↔◌, min, List, [], ◌∷◌, length, take, drop, IfOk, IfErr, IsTrue};
ghost use Rattle.tag_address.specs.declared.urls.Url.{Url};
ghost use Rattle.tag_address.specs.Parts.{IsRead, IsStuck};
ghost use Rattle.tag_address.specs.UrlParts.{IsBehindHost, IsBehindPort, IsBehindPortColon, IsBehindQuery, IsBehindScheme, IsHostAt, IsWholeUrl, url_word};
ghost use Rattle.tag_address.specs.Urls.{IsHostByte, IsUrl, IsUrlRefused};

use crate::numbers::read_number;
use crate::words::{Spelled, read_word};
use node_tree::{ByteList, OwnedList};
use std::alloc::Global;

/// A device: for Modbus over TCP its host, port and unit; for S7 its host, port, local and remote transport selectors, and the length
/// of a PDU that is asked for, in bytes.
#[derive(Debug, Drop)]
pub enum Url {
    Modbus {
        host: ByteList,
        port: u16,
        unit: u8,
    },
    S7 {
        host: ByteList,
        port: u16,
        local: u16,
        remote: u16,
        pdu: u16,
    },
}

/// Why a text is no URL: the place, in bytes from 0, at which it leaves the URLs, or memory ran out.
#[derive(Clone, Copy, Debug, PartialEq, Eq)]
pub enum UrlFault {
    At(u32),
    NoMemory,
}

/// The words of a URL.
#[derive(Clone, Copy, Debug, PartialEq, Eq)]
pub enum UrlWord {
    Scheme,
    UnitName,
}

impl Spelled for UrlWord {
    ghost spelling = { url_word };

    fn spelling_bytes(&self) -> &'static [u8] {
        match self {
            UrlWord::Scheme => b"modbus-tcp://",
            UrlWord::UnitName => b"?unit-identifier=",
        }
    }
}

/// The port where a URL has none: that of Modbus over TCP.
const DEFAULT_PORT: u16 = 502;

/// The unit where a URL has none.
const DEFAULT_UNIT: u8 = 1;

/// A letter, a digit, `.` or `-`.
fn is_host_byte(byte: u8) -> bool
    ensures { IsTrue result ↔ IsHostByte byte }
{
    matches!(byte, b'-' | b'.' | b'0'..=b'9' | b'A'..=b'Z' | b'a'..=b'z')
}

/// How many bytes of a host stand in front of a text.
fn host_length(text: &[u8]) -> usize
    ensures { IsHostAt text.now result }
{
    for (place, byte) in text.iter().enumerate() {
        if !is_host_byte(*byte) {
            return place;
        }
    }
    text.len()
}

/// The unit behind its name, and nothing behind it.
fn read_unit(text: &[u8]) -> Result<u8, usize>
    ensures read { IfOk result (λ unit. (host : List ℕ) (port : ℕ) → IsRead (IsBehindQuery host port) text.now (Url.Modbus host port unit)) }
    ensures stuck { IfErr result (λ place. (host : List ℕ) (port : ℕ) → IsStuck (IsBehindQuery host port) text.now place) }
{
    match read_number(text, 0, 255) {
        Some((unit, used)) => if used == text.len() {
            Ok(unit as u8)
        } else {
            Err(used)
        },
        None => Err(0),
    }
}

/// The unit behind the port, or none.
fn read_query(text: &[u8]) -> Result<u8, usize>
    ensures read { IfOk result (λ unit. (host : List ℕ) (port : ℕ) → IsRead (IsBehindPort host port) text.now (Url.Modbus host port unit)) }
    ensures stuck { IfErr result (λ place. (host : List ℕ) (port : ℕ) → IsStuck (IsBehindPort host port) text.now place) }
{
    if text.is_empty() {
        return Ok(DEFAULT_UNIT);
    }
    match read_word(&[UrlWord::UnitName], text) {
        Ok((_, used)) => match read_unit(&text[used..]) {
            Ok(unit) => Ok(unit),
            Err(place) => Err(used + place),
        },
        Err(place) => Err(place),
    }
}

/// The port behind its colon, and the unit.
fn read_port(text: &[u8]) -> Result<(u16, u8), usize>
    ensures read { IfOk result (λ r. (host : List ℕ) → IsRead (IsBehindPortColon host) text.now (Url.Modbus host r.0 r.1)) }
    ensures stuck { IfErr result (λ place. (host : List ℕ) → IsStuck (IsBehindPortColon host) text.now place) }
{
    match read_number(text, 1, 65_535) {
        Some((port, used)) => match read_query(&text[used..]) {
            Ok(unit) => Ok((port as u16, unit)),
            Err(place) => Err(used + place),
        },
        None => Err(0),
    }
}

/// The port and the unit behind the host, or those that hold where none is written.
fn read_behind_host(text: &[u8]) -> Result<(u16, u8), usize>
    ensures read { IfOk result (λ r. (host : List ℕ) → IsRead (IsBehindHost host) text.now (Url.Modbus host r.0 r.1)) }
    ensures stuck { IfErr result (λ place. (host : List ℕ) → IsStuck (IsBehindHost host) text.now place) }
{
    if text.is_empty() || text[0] != b':' {
        return match read_query(text) {
            Ok(unit) => Ok((DEFAULT_PORT, unit)),
            Err(place) => Err(place),
        };
    }
    match read_port(&text[1..]) {
        Ok((port, unit)) => Ok((port, unit)),
        Err(place) => Err(1 + place),
    }
}

/// The length of the host, the port and the unit behind the scheme.
fn read_behind_scheme(text: &[u8]) -> Result<(usize, u16, u8), usize>
    ensures host { IfOk result (λ r. r.0 ≤ length text.now) }
    ensures read { IfOk result (λ r. IsRead IsBehindScheme text.now (Url.Modbus (take r.0 text.now) r.1 r.2)) }
    ensures stuck { IfErr result (λ place. IsStuck IsBehindScheme text.now place) }
{
    let length = host_length(text);
    if length == 0 {
        return Err(0);
    }
    match read_behind_host(&text[length..]) {
        Ok((port, unit)) => Ok((length, port, unit)),
        Err(place) => Err(length + place),
    }
}

/// The fault of a text that leaves the URLs at this place.
fn fault_at(place: usize) -> UrlFault
    ensures { result ≡ UrlFault.At (min place 4294967295) }
{
    UrlFault::At(place.min(u32::MAX as usize) as u32)
}

/// Where a URL's host stands in its text, and the port and the unit.
#[derive(Clone, Copy, Debug, PartialEq, Eq)]
struct Spans {
    from: usize,
    to: usize,
    port: u16,
    unit: u8,
}

/// The parts of a URL, or the place at which the text leaves the URLs.
fn read_spans(text: &[u8]) -> Result<Spans, usize>
    ensures order { IfOk result (λ s. (s.from ≤ s.to) × (s.to ≤ length text.now)) }
    ensures read { IfOk result (λ s. IsRead IsWholeUrl text.now (Url.Modbus (take (s.to - s.from) (drop s.from text.now)) s.port s.unit)) }
    ensures stuck { IfErr result (λ place. IsStuck IsWholeUrl text.now place) }
{
    match read_word(&[UrlWord::Scheme], text) {
        Ok((_, used)) => match read_behind_scheme(&text[used..]) {
            Ok((length, port, unit)) => Ok(Spans {
                from: used,
                to: used + length,
                port,
                unit,
            }),
            Err(place) => Err(used + place),
        },
        Err(place) => Err(place),
    }
}

/// Reads a URL: for Modbus over TCP the host, the port and the unit, of which the last two may be left out, as in
/// `modbus-tcp://plc-3.example:502?unit-identifier=1`. No text is a URL of S7 so far. A text that is no URL is refused at the first
/// byte with which no URL begins.
pub fn read_url(alloc: Global, text: &[u8]) -> Result<Url, UrlFault>
    ensures read { IfOk result (λ url. IsUrl text.now url) }
    ensures exact { (url : Url) → IsUrl text.now url → (result ≡ Ok url) ⊎ (result ≡ Err UrlFault.NoMemory) }
    ensures refused { (told : ℕ) → result ≡ Err (UrlFault.At told) → IsUrlRefused text.now told }
{
    match read_spans(text) {
        Ok(spans) => match OwnedList::from_slice(alloc, &text[spans.from..spans.to]) {
            Ok(host) => Ok(Url::Modbus {
                host,
                port: spans.port,
                unit: spans.unit,
            }),
            Err(_) => Err(UrlFault::NoMemory),
        },
        Err(place) => Err(fault_at(place)),
    }
}
