// What the entries for C leave in lent slices: the order of a record's 27 numbers, numbers at a slice's front, an answer.
#![tactic(auto)]

ghost use Rattle.std.specs.Prelude.{◌≡◌, ◌+◌, ◌≤◌, length};
ghost use Rattle.lent.specs.Lent.{told, front};
ghost use Rattle.lent.specs.Numbers.{member_in, fields_in, numbers_of};

use writer::{Fields, MemberFields};

// How many numbers a record has beside those of its dowels.
pub const NUMBERS: usize = 27;

// A member's nine numbers by their place, and below all 27: that order is fixed for C for good, and the lists say it.
fn member_in(s: &[i32], at: usize) -> MemberFields
    requires { at + 9 ≤ length s.now }
    ensures { result ≡ member_in s.now at }
{
    MemberFields {
        class: s[at],
        grain: s[at + 1],
        gx: s[at + 2],
        gy: s[at + 3],
        thickness: s[at + 4],
        x0: s[at + 5],
        y0: s[at + 6],
        x1: s[at + 7],
        y1: s[at + 8],
    }
}

#[tactic(auto, unfolding(crate::specs::Numbers::fields_in))]
pub fn fields_in(s: &[i32]) -> Fields
    requires { 27 ≤ length s.now }
    ensures { result ≡ fields_in s.now }
{
    Fields {
        version: s[0],
        planes: s[1],
        member1: member_in(s, 2),
        member2: member_in(s, 11),
        diameter: s[20],
        steel: s[21],
        plate: s[22],
        service_class: s[23],
        duration: s[24],
        fx: s[25],
        fy: s[26],
    }
}

#[tactic(auto, unfolding(crate::specs::Numbers::numbers_of))]
pub fn numbers_of(f: &Fields) -> [i32; NUMBERS]
    ensures { result ≡ numbers_of f.now }
{
    let a = f.member1;
    let b = f.member2;
    [
        f.version,
        f.planes,
        a.class,
        a.grain,
        a.gx,
        a.gy,
        a.thickness,
        a.x0,
        a.y0,
        a.x1,
        a.y1,
        b.class,
        b.grain,
        b.gx,
        b.gy,
        b.thickness,
        b.x0,
        b.y0,
        b.x1,
        b.y1,
        f.diameter,
        f.steel,
        f.plate,
        f.service_class,
        f.duration,
        f.fx,
        f.fy,
    ]
}

// Puts all numbers of `from` at the front of `to`; what `to` has past them stays. By a loop of its own: in std's `copy_from_slice` there is no step
// in which a wrong program could leave a number out, so that the proof would be refused by its form and not by what is left.
pub fn copy<T: Copy>(from: &[T], to: &mut [T])
    requires { length from.now ≤ length to.old }
    ensures { to.new ≡ front from.now to.old }
{
    let mut k = 0;
    while k < from.len() {
        to[k] = from[k];
        k += 1;
    }
}

// Puts a refusal's number and a count into a slice.
pub fn tell(number: u8, count: usize, answer: &mut [u64])
    requires { 2 ≤ length answer.old }
    ensures { answer.new ≡ front (told number count) answer.old }
{
    copy(&[number as u64, count as u64], answer);
}
