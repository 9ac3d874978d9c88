// The line that the program writes, made from a judgement (01, 'Printing').
#![tactic(auto)]

ghost use Rattle.std.specs.Prelude.{◌+◌, ◌*◌, ◌≤◌, ◌≡◌, ◌∷◌, [], ◌++◌, length};
ghost use Rattle.std.specs.List.{flat_map};
ghost use Rattle.arrayvec.specs.ArrayString.{array_string_len};
ghost use Rattle.joint.specs.Told.{told};
ghost use Rattle.joint.specs.Returned.{unanswered};
ghost use Rattle.joint.specs.declared.report.Judgement.TheVariants.{Fits};
ghost use Rattle.line.specs.Line.{field_of, figures_after, line_of, Added};

use arrayvec::ArrayString;
use itoa::Buffer;
use joint::report::{Figures, Judgement};

// The bytes of the longest line: `refused`, four numbers of up to 20 digits with a space before each, and the newline.
pub const LONGEST: usize = 92;

// Puts src into a line from `at` on, and answers where it ends. What stands before `at` stays. For a line that stands in a slice of its caller's.
pub fn put(src: &[u8], line: &mut [u8], at: usize) -> usize
    requires { at + length src.now ≤ length line.old }
    ensures { Added line.old line.new at result (length src.now) src.now }
{
    let end = at + src.len();
    line[at..end].copy_from_slice(src);
    end
}

// A space and n after what stands in the line. By `push_str`: std says of `write!` what a `String` takes, and nothing of other writers.
fn push_field(line: &mut ArrayString<LONGEST>, n: u64)
    requires { array_string_len line.old + 21 ≤ 92 }
    ensures bytes { line.new.bytes ≡ line.old.bytes ++ field_of n }
    ensures near { array_string_len line.new ≤ array_string_len line.old + 21 }
{
    line.push_str(" ");
    line.push_str(Buffer::new().format(n));
}

// A word, numbers with a space before each, and the newline.
fn line_with(word: &str, numbers: &[u64]) -> ArrayString<LONGEST>
    requires { length word.now + 21 * length numbers.now ≤ 91 }
    ensures { result.bytes ≡ word.now ++ (flat_map field_of numbers.now ++ (10 ∷ [])) }
{
    let mut line = ArrayString::new();
    line.push_str(word);
    for n in numbers {
        push_field(&mut line, *n);
    }
    line.push_str("\n");
    line
}

// A verdict's word with U, C and E.
fn figures_line(word: &str, f: Figures) -> ArrayString<LONGEST>
    requires { length word.now ≤ 28 }
    ensures { result.bytes ≡ figures_after word.now (told (Fits f)) }
{
    line_with(word, &[f.usage, f.capacity, f.share])
}

// The line of a judgement.
#[tactic(auto, unfolding(crate::specs::Line::line_of, joint::specs::Returned::unanswered))]
pub fn line_of(j: Judgement) -> ArrayString<LONGEST>
    ensures { result.bytes ≡ line_of (told j) }
{
    match j {
        Judgement::Fits(f) => figures_line("fits", f),
        Judgement::Overloaded(f) => figures_line("overloaded", f),
        Judgement::Refused(r) => refusal_line(r.number(), r.member(), r.first(), r.second()),
    }
}

// The line of a refusal by its number and place, whichever they are: no judgement has a number above 12.
#[tactic(auto, unfolding(crate::specs::Line::line_of, joint::specs::Returned::unanswered))]
pub fn refusal_line(number: u8, member: u8, first: u8, second: u8) -> ArrayString<LONGEST>
    ensures { result.bytes ≡ line_of (unanswered (record { number = number; member = member; first = first; second = second })) }
{
    line_with(
        "refused",
        &[number as u64, member as u64, first as u64, second as u64],
    )
}
