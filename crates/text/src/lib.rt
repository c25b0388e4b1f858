// Text put into a store, part after part: numbers in base ten, columns, lines.
#![tactic(auto)]

ghost use Rattle.std.specs.Prelude.{◌≡◌, ◌≤◌, length};
ghost use Rattle.model.specs.Walk.{owner_of};
ghost use Rattle.text.specs.Text.{decimal, line, right_aligned, letter};
ghost use Rattle.writer.specs.Output.{Appends, HasRoom};

use writer::Output;

// Puts a number in base ten.
#[tactic(auto, using(crate::proofs::Columns::right_own))]
pub fn put_number(out: &mut Output, n: u64)
    requires { HasRoom out.old (decimal n) }
    ensures { Appends out.old out.new (decimal n) }
{
    put_right(out, digits_of(n), n);
}

// How many digits a number has in base ten.
#[tactic(auto, using(crate::proofs::Columns::decimal_one, crate::proofs::Numbers::digits))]
pub fn digits_of(n: u64) -> usize
    ensures { result ≡ length (decimal n) }
{
    match n.checked_ilog10() {
        None => 1,
        Some(k) => k as usize + 1,
    }
}

// Puts a number in base ten, right-aligned in so many columns: its last digit, and before it the others or blanks. By hand, since the
// toolchain's `itoa` would be one library more, and its digits would have to be matched with those of `decimal`. So would
// those of `write!`, for which `Output` would be a writer that may fail.
#[tactic(auto, using(crate::proofs::Columns::columns))]
pub fn put_right(out: &mut Output, width: usize, n: u64)
    requires { (length (decimal n) ≤ width) × HasRoom out.old (right_aligned width (decimal n)) }
    ensures { Appends out.old out.new (right_aligned width (decimal n)) }
{
    if n < 10 {
        out.repeat(b' ', width - 1);
        out.byte(b'0' + n as u8);
    } else {
        put_right(out, width - 1, n / 10);
        out.byte(b'0' + (n % 10) as u8);
    }
}

// Puts a line that ends with a number.
#[tactic(auto, using(writer::proofs::Outputs::appended), unfolding(crate::specs::Text::line))]
pub fn put_line(out: &mut Output, word: &[u8], n: u64)
    requires { HasRoom out.old (line word.now n) }
    ensures { Appends out.old out.new (line word.now n) }
{
    out.bytes(word);
    put_number(out, n);
    out.byte(b'\n');
}

// The letter of the thread whose turn it is.
#[tactic(auto, using(model::proofs::Owners::even_turn, model::proofs::Owners::odd_turn))]
pub fn letter_of(turn: u8) -> u8
    ensures { result ≡ letter (owner_of turn) }
{
    if turn % 2 == 0 { b'A' } else { b'B' }
}
