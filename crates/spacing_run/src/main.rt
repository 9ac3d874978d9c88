// Runs the spacing verdict by each table and the shares on the joints of standard input, one line a joint: refusal and place by Table 8, the
// share of each member, refusal and place by Eurocode.
// A number is a sign and seven digits with one space or line end after it: nine bytes. A joint is d fx fy, then grain x0 y0 x1
// y1 of member 1 and of member 2, then the number of dowels, and x y of each; numbers past the end are 0. Then the shares of the
// rows of 001's Table 13-2, as 001 prints them.
#![tactic(auto)]

ghost use Rattle.std.specs.Prelude.{◌+◌, ◌*◌, ◌≤◌, length, IfSome};

use group::{member, share};
use spacing::edge::EdgeRule;
use spacing::verdict::{self, Fault};
use spacing::view::{Piece, Plan};
use std::{array, io};

// The most bytes that are read.
const MOST_BYTES: usize = 131072;

// How many a number has, and how many of them are digits.
const FIELD: usize = 9;

const DIGITS: usize = 7;

// The last number that a joint may start at.
const LAST_START: usize = 14400;

// How many numbers a joint has before its dowels.
const BEFORE_DOWELS: usize = 14;

// Tenths of a millimetre in one.
const TENTHS: u64 = 10;

// A number; 0 where it is not whole. By hand and not by `parse`, since what is no digit counts as 0.
fn number_of(field: &[u8]) -> i32 {
    let [sign, others @ ..] = field else {
        return 0;
    };
    let Some(digits) = others.get(..DIGITS) else {
        return 0;
    };
    let size = digits.iter().fold(0i32, |n, digit| {
        n.saturating_mul(10)
            .saturating_add((*digit as char).to_digit(10).unwrap_or(0) as i32)
    });
    if *sign == b'-' {
        0i32.saturating_sub(size)
    } else {
        size
    }
}

// Number k of a joint that stands at the text's start; 0 past the end.
fn number(text: &[u8], k: usize) -> i32
    requires { k ≤ 142 }
{
    text.get(FIELD * k..).map_or(0, number_of)
}

fn piece(grain: i32, x0: i32, y0: i32, x1: i32, y1: i32) -> Piece {
    Piece {
        grain: u8::from(grain != 0),
        x0,
        y0,
        x1,
        y1,
    }
}

// The x of each dowel, or the y.
fn column(places: &[i32], side: usize) -> [i32; 64]
    requires { side ≤ 1 }
{
    array::from_fn(|i| places.get(2 * i + side).copied().unwrap_or(0))
}

// A plan within the limits of a record.
fn plan_of(diameter: u64, fx: i32, fy: i32, places: &[i32]) -> Option<Plan>
    requires { length places.now ≤ 128 }
    ensures { IfSome result (λ p. (6 ≤ p.diameter) × (1 ≤ p.count)) }
{
    let wide = fx.unsigned_abs();
    let high = fy.unsigned_abs();
    let count = places.len() / 2;
    if !(6..=30).contains(&diameter) || count == 0 {
        return None;
    }
    if 1000000 < wide || 1000000 < high || wide + high == 0 {
        return None;
    }
    Some(Plan {
        diameter,
        fx,
        fy,
        x: column(places, 0),
        y: column(places, 1),
        count,
    })
}

// A verdict's refusal and place, all 0 where the spacing passes.
fn place_of(verdict: Result<(), Fault>) -> [u8; 4] {
    match verdict {
        Ok(()) => [0; 4],
        Err(f) => [f.number(), f.member(), f.first(), f.second()],
    }
}

fn judge(rt: &HostRuntime, member1: Piece, member2: Piece, plan: Plan) -> io::Result<()>
    requires { (6 ≤ plan.diameter) × (1 ≤ plan.count) }
{
    let by = |edges| place_of(verdict::spacing_verdict(edges, member1, member2, plan));
    let [number, member, first, second] = by(EdgeRule::Table8);
    let [number_e, member_e, first_e, second_e] = by(EdgeRule::Eurocode);
    let taken = member::both_taken(member1, member2, plan);
    let share1 = taken.member1.share;
    let share2 = taken.member2.share;
    println!(rt;
        "{number} {member} {first} {second} {share1} {share2} {number_e} {member_e} {first_e} {second_e} "
    )
}

// Each joint in turn, until the text ends or one has no dowel. Its numbers are taken from the text as they are asked for: no list of all of them is made.
fn joints(rt: &HostRuntime, text: &[u8]) -> io::Result<()> {
    let mut rest = text;
    while let [_, ..] = rest {
        let [
            d,
            fx,
            fy,
            grain1,
            x1,
            y1,
            x2,
            y2,
            grain2,
            x3,
            y3,
            x4,
            y4,
            count,
        ]: [i32; BEFORE_DOWELS] = array::from_fn(|k| number(rest, k));
        let size = 2 * count.unsigned_abs() as usize;
        if size == 0 || 128 < size {
            return Ok(());
        }
        if FIELD * LAST_START < text.len().saturating_sub(rest.len()) {
            return Ok(());
        }
        let places: [i32; 128] = array::from_fn(|k| {
            if k < size {
                number(rest, BEFORE_DOWELS + k)
            } else {
                0
            }
        });
        if let Some(plan) = plan_of(d.unsigned_abs() as u64, fx, fy, &places[..size]) {
            let member1 = piece(grain1, x1, y1, x2, y2);
            let member2 = piece(grain2, x3, y3, x4, y4);
            judge(rt, member1, member2, plan)?;
        }
        rest = rest.get(FIELD * (BEFORE_DOWELS + size)..).unwrap_or(&[]);
    }
    Ok(())
}

// n times a share, to the nearest of units of `unit` ten-thousandths.
fn rounded(share: u64, n: u64, unit: u64) -> u64
    requires { (share ≤ 10002) × (n ≤ 10) × (1 ≤ unit) × (unit ≤ 100) }
{
    (share * n + unit / 2) / unit
}

// A row of n dowels 5 d apart, d = 12 mm: E n/10,000 and (E + 2) n/10,000 in hundredths, and E/10,000 in thousandths.
fn row(rt: &HostRuntime, n: usize) -> io::Result<()>
    requires { (1 ≤ n) × (n ≤ 10) }
{
    let x = array::from_fn(|i| if i < 10 { 600 * i as i32 } else { 0 });
    let share = share::member_share(12, 12 * TENTHS, x, [0; 64], n);
    if 10000 < share {
        return Ok(());
    }
    let low = rounded(share, n as u64, 100);
    let high = rounded(share + 2, n as u64, 100);
    let each = rounded(share, 1, 10);
    println!(rt; "{low} {high} {each} ")
}

// 001, Table 13-2, the row of 0 degrees, n from 2 to 10: `stdout` has n_ef, again n_ef, and n_ef/n as 001 prints them. The other
// rows of the table follow from 001's (13.2), "für 0° ≤ α ≤ 90° wird n_ef linear interpoliert", up to n_ef = n at 90 degrees. 01
// takes the effective number of 0 degrees at every angle, so no share speaks of them.
fn table_13_2(rt: &HostRuntime) -> io::Result<()> {
    for n in 2..11 {
        row(rt, n)?;
    }
    Ok(())
}

fn main(rt: HostRuntime) -> io::Result<()> {
    // The text stands in an array: no memory is asked for.
    let mut room = [0u8; MOST_BYTES];
    let n = intake::read_full(&mut rt.stdin(), &mut room);
    joints(&rt, &room[..n])?;
    table_13_2(&rt)
}
