// Tests, made with `wide` itself, of what its operations ask.
ghost use Rattle.std.specs.Prelude.{◌≡◌, true, ◌+◌, ◌*◌, ◌<◌, ◌≤◌, length};
ghost use Rattle.wide.specs.Natural.{value, weight};

// Whether a + b is at most the number that `room` holds.
pub fn has_room(a: &[u32], b: &[u32], room: &mut [u32]) -> bool
    requires { length room.old ≡ length a.now }
    ensures { result ≡ true → value a.now + value b.now < weight a.now }
{
    if wide::at_most(a, room) {
        wide::subtract_from(room, a);
        return wide::at_most(b, room);
    }
    false
}

// Whether a is below 2^64 b.
pub fn has_short_quotient(a: &[u32], b: &[u32]) -> bool
    requires { length b.now ≤ 16 }
    ensures { result ≡ true → value a.now < 18446744073709551616 * value b.now }
{
    let p: [u32; 19] = wide::product(b, &[0, 0, 1]);
    !wide::at_most(&p, a)
}
