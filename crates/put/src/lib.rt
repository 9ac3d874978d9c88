// A record's values put into bytes, part by part, in kind order 1 to 4 (02, A2).
#![tactic(auto)]

ghost use Rattle.std.specs.Prelude.{◌≡◌, [], ◌∷◌, ◌++◌, ◌+◌, ◌*◌, ◌≤◌, pos, length, drop};
ghost use Rattle.std.proofs.lemmas.List.Edits.{sets};
ghost use Rattle.numbers.specs.Fields.{field_bytes};
ghost use Rattle.joint.specs.Layout.{pair_fields, member_bytes, members_bytes, dowel_bytes, position_fields, columns_bytes, positions_bytes, loads_bytes, bytes_of};
ghost use Rattle.put.specs.Front.{outline_fields, front_bytes, Room};

use joint::places::{
    DOWEL_BYTES, HEADER_BYTES, Kind, LOADS_BYTES, MEMBER_1, MEMBER_2, MEMBERS_BYTES, PAIRS,
    POSITION_BYTES, POSITIONS_FRONT, VERSION_AT,
};
use joint::{Dowel, Loads, Member, Members, Outline, Positions, Values};
use numbers::{put_i32, put_u16};

// Where the pairs stand, after version and number of pairs.
const MEMBERS_PAIR: usize = 4;

const DOWEL_PAIR: usize = 8;

const POSITIONS_PAIR: usize = 12;

const LOADS_PAIR: usize = 16;

// Where each part starts; the loads, after the positions.
const MEMBERS_AT: usize = HEADER_BYTES;

const DOWEL_AT: usize = HEADER_BYTES + MEMBERS_BYTES;

const POSITIONS_AT: usize = HEADER_BYTES + MEMBERS_BYTES + DOWEL_BYTES;

// Where a member's outline stands in it, after class, grain and thickness.
const OUTLINE: usize = 4;

// Where fx and fy stand in their part, after kind, service class and duration.
const FORCE: usize = 3;

// Here and below `s` is the whole record and `at` a place in it, a number and no slice from there on: the laws of runs of stores
// (numbers/proofs/Bytes.antt) speak of one list and places in it.

// Two functions for two numbers each, of two bytes and of four: one over both widths would need a trait that says how each is put.
fn put_pair(s: &mut [u8], at: usize, first: u16, second: u16)
    requires { at + 4 ≤ length s.old }
    ensures { s.new ≡ sets s.old at (field_bytes pair_fields (pos first ∷ pos second ∷ [])) }
{
    put_u16(s, at, first);
    put_u16(s, at + 2, second);
}

fn put_point(s: &mut [u8], at: usize, x: i32, y: i32)
    requires { at + 8 ≤ length s.old }
    ensures { s.new ≡ sets s.old at (field_bytes position_fields (x ∷ y ∷ [])) }
{
    put_i32(s, at, x);
    put_i32(s, at + 4, y);
}

// Version, number of pairs and the pairs of a record with n dowels.
#[tactic(auto, unfolding(crate::specs::Front::front_bytes, joint::specs::Layout::pairs_bytes))]
fn put_front(s: &mut [u8], version: u16, n: usize)
    requires { Room n (length s.old) }
    ensures { s.new ≡ sets s.old 0 (front_bytes version n) }
{
    let bytes = POSITIONS_FRONT + POSITION_BYTES * n;
    put_pair(s, VERSION_AT, version, PAIRS as u16);
    put_pair(s, MEMBERS_PAIR, MEMBERS_AT as u16, MEMBERS_BYTES as u16);
    put_pair(s, DOWEL_PAIR, DOWEL_AT as u16, DOWEL_BYTES as u16);
    put_pair(s, POSITIONS_PAIR, POSITIONS_AT as u16, bytes as u16);
    put_pair(
        s,
        LOADS_PAIR,
        (POSITIONS_AT + bytes) as u16,
        LOADS_BYTES as u16,
    );
}

fn put_outline(s: &mut [u8], at: usize, o: Outline)
    requires { at + 16 ≤ length s.old }
    ensures { s.new ≡ sets s.old at (field_bytes outline_fields (o.x0 ∷ o.y0 ∷ o.x1 ∷ o.y1 ∷ [])) }
{
    put_point(s, at, o.x0, o.y0);
    put_point(s, at + 8, o.x1, o.y1);
}

// Class, grain, thickness, then x0, y0, x1 and y1.
#[tactic(auto, unfolding(joint::specs::Layout::member_bytes))]
fn put_member(s: &mut [u8], at: usize, m: &Member)
    requires { at + 20 ≤ length s.old }
    ensures { s.new ≡ sets s.old at (member_bytes m.now) }
{
    s[at] = m.class;
    s[at + 1] = m.grain;
    put_u16(s, at + 2, m.thickness);
    put_outline(s, at + OUTLINE, m.outline);
}

// Kind, shear planes, then both members.
fn put_members(s: &mut [u8], at: usize, m: &Members)
    requires { at + 42 ≤ length s.old }
    ensures { s.new ≡ sets s.old at (members_bytes m.now) }
{
    s[at] = Kind::Members as u8;
    s[at + 1] = m.planes;
    put_member(s, at + MEMBER_1, &m.member1);
    put_member(s, at + MEMBER_2, &m.member2);
}

// Kind, diameter, steel.
#[tactic(auto, unfolding(joint::specs::Layout::dowel_bytes))]
fn put_dowel(s: &mut [u8], at: usize, w: Dowel)
    requires { at + 3 ≤ length s.old }
    ensures { s.new ≡ sets s.old at (dowel_bytes w) }
{
    s[at] = Kind::Dowel as u8;
    s[at + 1] = w.diameter;
    s[at + 2] = w.steel;
}

// x and y of each dowel.
#[tactic(auto, unfolding(joint::specs::Layout::columns_bytes))]
fn put_columns(s: &mut [u8], at: usize, p: &Positions)
    requires { (p.now.n ≤ 64) × (at + 8 * p.now.n ≤ length s.old) }
    ensures { s.new ≡ sets s.old at (columns_bytes p.now.x p.now.y p.now.n) }
{
    for i in 0..p.n {
        put_point(s, at + POSITION_BYTES * i, p.x[i], p.y[i]);
    }
}

// Kind, N, then x and y of each dowel.
#[tactic(auto, unfolding(joint::specs::Layout::positions_bytes))]
fn put_positions(s: &mut [u8], at: usize, p: &Positions)
    requires { (p.now.n ≤ 64) × (at + 2 + 8 * p.now.n ≤ length s.old) }
    ensures { s.new ≡ sets s.old at (positions_bytes p.now) }
{
    s[at] = Kind::Positions as u8;
    s[at + 1] = p.n as u8;
    put_columns(s, at + POSITIONS_FRONT, p);
}

// Kind, service class, duration, then fx and fy.
#[tactic(auto, unfolding(joint::specs::Layout::loads_bytes))]
fn put_loads(s: &mut [u8], at: usize, l: Loads)
    requires { at + 11 ≤ length s.old }
    ensures { s.new ≡ sets s.old at (loads_bytes l) }
{
    s[at] = Kind::Loads as u8;
    s[at + 1] = l.service_class;
    s[at + 2] = l.duration;
    put_point(s, at + FORCE, l.fx, l.fy);
}

#[tactic(auto, using(crate::proofs::Whole::whole))]
pub fn put_record(buffer: &mut [u8], v: &Values)
    requires { Room v.now.positions.n (length buffer.old) }
    ensures { buffer.new ≡ bytes_of v.now ++ drop (length (bytes_of v.now)) buffer.old }
{
    let n = v.positions.n;
    put_front(buffer, v.version, n);
    put_members(buffer, MEMBERS_AT, &v.members);
    put_dowel(buffer, DOWEL_AT, v.dowel);
    put_positions(buffer, POSITIONS_AT, &v.positions);
    put_loads(
        buffer,
        POSITIONS_AT + POSITIONS_FRONT + POSITION_BYTES * n,
        v.loads,
    );
}
