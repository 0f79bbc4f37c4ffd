//! Lines of a history.
ghost use Rattle.std.specs.Prelude.{◌≡◌, ◌==◌, IfErr};
ghost use Rattle.std.specs.Option.{option_map};
ghost use Rattle.trace_text.specs.Lines.{IsSaid};
ghost use Rattle.history_text.specs.Lines.{seen_by, seen_in, load_request_of, load_response_of, store_request_of, store_response_of};
ghost use Rattle.history_text.specs.Lines.{event_from as event_made, command_named as command_of, is_comment as begins_comment};
ghost use Rattle.history_text.specs.Lines.{is_blank as is_all_blank, is_passed_over as is_skipped, line_of};

use crate::events::OwnedEvent;
use crate::fields::{bytes, enables, value};
use trace_text::{LineFault, cut};

#[derive(Clone, Copy)]
enum Command {
    LoadRequest,
    LoadResponse,
    StoreRequest,
    StoreResponse,
}

#[tactic(auto, unfolding(crate::specs::Lines::command_named))]
fn command_named(name: &[u8]) -> Option<Command>
    ensures { result ≡ command_of name.now }
{
    if name == b"load-request".as_slice() {
        Some(Command::LoadRequest)
    } else if name == b"load-response".as_slice() {
        Some(Command::LoadResponse)
    } else if name == b"store-request".as_slice() {
        Some(Command::StoreRequest)
    } else if name == b"store-response".as_slice() {
        Some(Command::StoreResponse)
    } else {
        None
    }
}

fn load_request(fields: Option<&[u8]>) -> Option<OwnedEvent>
    ensures { seen_by result ≡ load_request_of (option_map (λ rest. rest.now) fields.entry) }
{
    let (number, rest) = cut(fields?);
    let (address, rest) = cut(rest?);
    let length = value(rest?);
    let number = value(number);
    let address = value(address);
    Some(OwnedEvent::LoadRequest {
        number: number?,
        address: address?,
        length: length?,
    })
}

fn load_response(fields: Option<&[u8]>) -> Option<OwnedEvent>
    ensures { seen_by result ≡ load_response_of (option_map (λ rest. rest.now) fields.entry) }
{
    let (number, rest) = cut(fields?);
    let bytes = bytes(rest?);
    let number = value(number);
    Some(OwnedEvent::LoadResponse {
        number: number?,
        bytes: bytes?,
    })
}

fn store_request(fields: Option<&[u8]>) -> Option<OwnedEvent>
    ensures { seen_by result ≡ store_request_of (option_map (λ rest. rest.now) fields.entry) }
{
    let (number, rest) = cut(fields?);
    let (address, rest) = cut(rest?);
    let (digits, rest) = cut(rest?);
    let number = value(number)?;
    let address = value(address)?;
    let bytes = bytes(digits)?;
    let enables = enables(bytes.len(), rest)?;
    Some(OwnedEvent::StoreRequest {
        number,
        address,
        bytes,
        enables,
    })
}

fn store_response(fields: Option<&[u8]>) -> Option<OwnedEvent>
    ensures { seen_by result ≡ store_response_of (option_map (λ rest. rest.now) fields.entry) }
{
    Some(OwnedEvent::StoreResponse {
        number: value(fields?)?,
    })
}

#[tactic(auto, unfolding(crate::specs::Lines::event_from))]
fn event_from(command: Command, fields: Option<&[u8]>) -> Option<OwnedEvent>
    ensures { seen_by result ≡ event_made command (option_map (λ rest. rest.now) fields.entry) }
{
    match command {
        Command::LoadRequest => load_request(fields),
        Command::LoadResponse => load_response(fields),
        Command::StoreRequest => store_request(fields),
        Command::StoreResponse => store_response(fields),
    }
}

fn is_comment(text: &[u8]) -> bool
    ensures { result ≡ begins_comment text.now }
{
    match text {
        [first, ..] => *first == b'#',
        [] => false,
    }
}

fn is_blank(text: &[u8]) -> bool
    ensures { result ≡ is_all_blank text.now }
{
    text.iter().all(|byte| *byte == b' ')
}

fn is_passed_over(text: &[u8]) -> bool
    ensures { result ≡ is_skipped text.now }
{
    is_blank(text) || is_comment(text)
}

/// What a line says, without its LF. `None`: it is blank or begins with `#`.
///
/// Lines are `load-request ID ADDRESS LENGTH`, `load-response ID BYTES`, `store-request ID ADDRESS
/// BYTES`, maybe with ` ENABLES`, and `store-response ID`, with one space between fields. Numbers
/// have 64 bits: decimal with no zero in front, or hexadecimal behind `0x`. `BYTES` are 1 to 64 in
/// memory's order, two digits `0` to `9`, `a` to `f` each. `ENABLES` is `0` or `1` for each byte in
/// that order; without it all are enabled.
///
/// [`LineFault::Unknown`]: no command stands up to the first space. [`LineFault::Field`]: anything
/// else. No other fault comes.
#[tactic(auto, unfolding(crate::specs::Lines::line_of))]
pub fn read_history_line(text: &[u8]) -> Result<Option<OwnedEvent>, LineFault>
    ensures said { seen_in result ≡ line_of text.now }
    ensures fault { IfErr result IsSaid }
{
    if is_passed_over(text) {
        return Ok(None);
    }
    let (name, fields) = cut(text);
    match command_named(name) {
        None => Err(LineFault::Unknown),
        Some(command) => match event_from(command, fields) {
            None => Err(LineFault::Field),
            Some(event) => Ok(Some(event)),
        },
    }
}
