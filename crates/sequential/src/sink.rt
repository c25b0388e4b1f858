// Where the lines of rules go: into a store, or only into a count of their bytes.
ghost use Rattle.std.specs.Prelude.{List, ℕ, ◌+◌, ◌-◌, ◌≤◌, ◌≡◌, length};
ghost use Rattle.sequential.specs.Parts.{rule_in};
ghost use Rattle.sequential.specs.Sinks.{Laws, counts, limit, output_laws, count_laws};
ghost use Rattle.sequential.specs.Text.{rule_text};
ghost use Rattle.writer.specs.Output.{Appends};

use crate::line;
use crate::state::Transition;
use writer::Output;

pub trait Sink {
    // The bytes have been taken after those of before.
    ghost takes: { Self → Self → List ℕ → Type 0 };

    // How many bytes more there is room for.
    ghost room: { Self → ℕ };

    // How the two go together.
    ghost laws: { Laws takes room };

    // The line of a rule.
    fn rule(&mut self, r: Transition)
        requires { length (rule_text (rule_in r)) ≤ room self.old }
        ensures { takes self.old self.new (rule_text (rule_in r)) };
}

impl Sink for Output<'_> {
    ghost takes = { Appends };

    ghost room = { λ o. length o.store.now - o.at };

    ghost laws = { output_laws };

    fn rule(&mut self, r: Transition) {
        line::put_line(self, r);
    }
}

// A count of bytes, which stays far below its type's limit.
#[derive(Drop)]
pub struct Count {
    pub bytes: usize,
}

impl Sink for Count {
    ghost takes = { counts };

    ghost room = { λ c. limit - c.bytes };

    ghost laws = { count_laws };

    fn rule(&mut self, r: Transition) {
        self.bytes += line::length(r);
    }
}
