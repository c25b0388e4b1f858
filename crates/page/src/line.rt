// The line of a step.
ghost use Rattle.std.specs.Prelude.{◌≡◌, ◌≤◌, length};
ghost use Rattle.text.specs.Text.{decimal};
ghost use Rattle.page.specs.Page.{column, hex_digit, stack_columns, mark, step_head, step_stacks, page_line};
ghost use Rattle.page.specs.Parts.{StepFits};
ghost use Rattle.walk.specs.Stack.{top_first, config_of};
ghost use Rattle.writer.specs.Output.{Appends, HasRoom};

use walk::Walk;
use writer::Output;

// How many symbols of a stack are shown.
const SHOWN: usize = 28;

// Puts the line of step n, after which the walk is where w says.
#[tactic(auto, using(writer::proofs::Outputs::appended), unfolding(crate::specs::Page::page_line))]
pub fn put_step(out: &mut Output, n: usize, turn: u8, rule: u8, w: Walk, a: &[u8], b: &[u8])
    requires fits { StepFits n turn rule w.shared.0 }
    requires stacks { (w.a ≤ length a.now) × (w.b ≤ length b.now) }
    requires room { HasRoom out.old
        (page_line n (record { turn = turn; rule = rule }) (config_of w a.now b.now)) }
    ensures { Appends out.old out.new
        (page_line n (record { turn = turn; rule = rule }) (config_of w a.now b.now)) }
{
    put_head(out, n, turn, rule, w.shared.0);
    put_stacks(out, w, a, b);
}

// Puts the step's number, turn, thread and rule, and the shared state after it.
#[tactic(auto, using(writer::proofs::Outputs::appended, text::proofs::Numbers::digits_1, text::proofs::Numbers::digits_2, text::proofs::Numbers::digits_4), unfolding(crate::specs::Page::step_head))]
fn put_head(out: &mut Output, n: usize, turn: u8, rule: u8, shared: u8)
    requires fits { StepFits n turn rule shared }
    requires room { HasRoom out.old (step_head n (record { turn = turn; rule = rule }) shared) }
    ensures { Appends out.old out.new (step_head n (record { turn = turn; rule = rule }) shared) }
{
    put_column(out, 4, n as u64);
    put_column(out, 1, turn as u64);
    out.byte(text::letter_of(turn));
    out.byte(b' ');
    put_column(out, 2, rule as u64);
    put_column(out, 1, shared as u64);
}

// Puts both stacks, the mark and the line's end.
#[tactic(auto, using(writer::proofs::Outputs::appended), unfolding(crate::specs::Page::step_stacks))]
fn put_stacks(out: &mut Output, w: Walk, a: &[u8], b: &[u8])
    requires stacks { (w.a ≤ length a.now) × (w.b ≤ length b.now) }
    requires room { HasRoom out.old (step_stacks (config_of w a.now b.now).stacks) }
    ensures { Appends out.old out.new (step_stacks (config_of w a.now b.now).stacks) }
{
    put_stack(out, w.a, a);
    out.byte(b' ');
    put_stack(out, w.b, b);
    out.byte(mark_of(w.a, w.b));
    out.byte(b'\n');
}

// Puts a number right-aligned in so many columns, and a blank column.
#[tactic(auto, using(writer::proofs::Outputs::appended), unfolding(crate::specs::Page::column))]
pub fn put_column(out: &mut Output, width: usize, n: u64)
    requires { (length (decimal n) ≤ width) × HasRoom out.old (column width n) }
    ensures { Appends out.old out.new (column width n) }
{
    text::put_right(out, width, n);
    out.byte(b' ');
}

// Puts the columns of a stack: a digit for each of its topmost symbols, and blanks where there are fewer than are shown.
fn put_stack(out: &mut Output, depth: usize, stack: &[u8])
    requires { (depth ≤ length stack.now) × HasRoom out.old (stack_columns (top_first depth stack.now)) }
    ensures { Appends out.old out.new (stack_columns (top_first depth stack.now)) }
{
    let shown = SHOWN.min(depth);
    for i in 0..shown {
        out.byte(hex_digit(stack[depth - 1 - i]));
    }
    out.repeat(b' ', SHOWN - shown);
}

// The digit of a symbol.
fn hex_digit(symbol: u8) -> u8
    ensures { result ≡ hex_digit symbol }
{
    let digit = symbol % 16;
    if digit < 10 {
        b'0' + digit
    } else {
        b'a' + (digit - 10)
    }
}

// The mark of a line, by the depths of both stacks.
#[tactic(auto, unfolding(crate::specs::Page::mark))]
fn mark_of(a: usize, b: usize) -> u8
    ensures { result ≡ mark a b }
{
    if SHOWN < a || SHOWN < b { b'+' } else { b' ' }
}
