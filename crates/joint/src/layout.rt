// The record's header, pairs, kinds and lengths: refusals 1 to 6.
ghost use Rattle.std.specs.Prelude.{◌≡◌, ◌+◌, ◌≤◌, length, take, drop};
ghost use Rattle.std.specs.Prelude.{IfOk};
ghost use Rattle.tables.specs.Tests.{first_holding};
ghost use Rattle.joint.specs.Refusal.{positions_length, script_tests};
ghost use Rattle.joint.specs.Stage.{Bounded, found, all_found, sized, parts_of};
ghost use Rattle.joint.specs.Told.{kind_code, refusal_in};

use crate::places::{
    COUNT_AT, DOWEL_BYTES, FIRST_PAIR, HEADER_BYTES, Kind, LOADS_BYTES, MEMBERS_BYTES, PAIRS,
    POSITION_BYTES, VERSION_AT,
};
use crate::refusals::Refusal;
use chain::Width;
use codes::is_version;
use numbers::u16_at;

// The first byte of a part, and how many it has: places and lengths and no slices, since the definitions speak of where a part starts and how
// long it is (`parts_of`).
#[derive(Clone, Copy)]
pub(crate) struct Part {
    pub start: usize,
    pub bytes: usize,
}

#[derive(Clone, Copy)]
pub(crate) struct Parts {
    pub members: Part,
    pub dowel: Part,
    pub positions: Part,
    pub loads: Part,
}

// The stretch of the lent record that a part's pair names.
pub(crate) fn stretch(bytes: &[u8], part: Part) -> &[u8]
    requires { part.start + part.bytes ≤ length bytes.now }
    ensures { result.now ≡ take part.bytes (drop part.start bytes.now) }
{
    &bytes[part.start..part.start + part.bytes]
}

// The first part of a kind, by the bounds of the parts.
fn find_part(bytes: &[u8], bounds: &[usize; PAIRS + 1], kind: Kind) -> Option<Part>
    requires { Bounded bytes.now bounds.now }
    ensures { result ≡ found bytes.now (kind_code kind) }
{
    for k in 0..PAIRS {
        let start = bounds[k];
        if bytes[start] == kind.code() {
            return Some(Part {
                start,
                bytes: bounds[k + 1] - start,
            });
        }
    }
    None
}

// The parts of the four kinds: where four parts have four kinds, each kind is there once.
fn find_parts(bytes: &[u8], bounds: &[usize; PAIRS + 1]) -> Option<Parts>
    requires { Bounded bytes.now bounds.now }
    ensures { result ≡ all_found bytes.now }
{
    Some(Parts {
        members: find_part(bytes, bounds, Kind::Members)?,
        dowel: find_part(bytes, bounds, Kind::Dowel)?,
        positions: find_part(bytes, bounds, Kind::Positions)?,
        loads: find_part(bytes, bounds, Kind::Loads)?,
    })
}

#[tactic(auto, unfolding(crate::specs::Refusal::positions_length))]
fn positions_length(part: &[u8]) -> bool
    ensures { result ≡ positions_length part.now }
{
    match part {
        [_, n, places @ ..] => places.len() == POSITION_BYTES * *n as usize,
        _ => false,
    }
}

// Whether each part has a length of its kind.
#[tactic(auto, unfolding(crate::specs::Stage::sized))]
fn are_sized(bytes: &[u8], parts: Parts) -> bool
    requires { parts.positions.start + parts.positions.bytes ≤ length bytes.now }
    ensures { result ≡ sized bytes.now parts }
{
    parts.members.bytes == MEMBERS_BYTES
        && parts.dowel.bytes == DOWEL_BYTES
        && positions_length(stretch(bytes, parts.positions))
        && parts.loads.bytes == LOADS_BYTES
}

// Refusals 1 to 6, or the parts.
pub(crate) fn read_layout(bytes: &[u8]) -> Result<Parts, Refusal>
    ensures number { refusal_in result ≡ first_holding (script_tests bytes.now) }
    ensures parts { IfOk result (λ parts. parts ≡ parts_of bytes.now) }
{
    if bytes.len() < HEADER_BYTES {
        return Err(Refusal::TooFewBytes);
    }
    if !is_version(u16_at(bytes, VERSION_AT)) {
        return Err(Refusal::OtherVersion);
    }
    if u16_at(bytes, COUNT_AT) as usize != PAIRS {
        return Err(Refusal::OtherPairCount);
    }
    let mut bounds = [0usize; PAIRS + 1];
    if !chain::read(
        bytes,
        Width::Two,
        FIRST_PAIR,
        HEADER_BYTES,
        PAIRS,
        &mut bounds,
    ) {
        return Err(Refusal::PairsAgainstRule);
    }
    let Some(parts) = find_parts(bytes, &bounds) else {
        return Err(Refusal::KindsNotOnce);
    };
    if !are_sized(bytes, parts) {
        return Err(Refusal::WrongLength);
    }
    Ok(parts)
}
