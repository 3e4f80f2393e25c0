// How many comparisons of a group agree so far, and the lines that it prints. A comparison that disagrees is not counted, and
// prints a line of its own.
use crate::output::Output;
use std::fmt::{Display, Write};

// The number of an answer: 0, or that of the refusal. A call's own refusal becomes one; the tables of what is wanted have document 01's
// numbers.
fn number<T: Copy, E: Into<u8>>(answer: Result<T, E>) -> u8 {
    match answer {
        Ok(_) => 0,
        Err(refusal) => refusal.into(),
    }
}

// `case` is the number of the case at hand, which the line of a comparison that disagrees names.
#[derive(Clone, Copy)]
pub struct Tally {
    agreed: u32,
    case: u32,
}

impl Tally {
    pub fn new() -> Tally {
        Tally { agreed: 0, case: 0 }
    }

    // The same tally, at the case with this number.
    pub fn at(&mut self, case: u32) -> &mut Tally {
        self.case = case;
        self
    }

    // Counts a comparison if it agrees.
    pub fn count(&mut self, agrees: bool) {
        self.agreed = self.agreed.wrapping_add(u32::from(agrees));
    }

    // One comparison: of a value.
    pub fn same<T: Copy + PartialEq + Display>(&mut self, got: T, wanted: T) {
        let agrees = got == wanted;
        if !agrees {
            let case = self.case;
            let _ = writeln!(Output, "case {case} gives {got} and not {wanted}");
        }
        self.count(agrees);
    }

    // One comparison: what must hold.
    pub fn holds(&mut self, is_so: bool) {
        self.same(u8::from(is_so), 1);
    }

    // One comparison: of the numbers, which are 0 where a call is not refused.
    pub fn same_number<T: Copy, U: Copy, E: Into<u8>>(
        &mut self,
        got: Result<T, E>,
        wanted: Result<U, u8>,
    ) {
        self.same(number(got), number(wanted));
    }

    // Two comparisons: of the numbers, and of the values, which are 0 at a refusal.
    pub fn same_answer<T: Copy + PartialEq + Display + Default, E: Copy + Into<u8>>(
        &mut self,
        got: Result<T, E>,
        wanted: Result<T, u8>,
    ) {
        self.same_number(got, wanted);
        self.same(got.unwrap_or_default(), wanted.unwrap_or_default());
    }

    // The rows of a table, each a case with the answer that a call has given and the one that it must give. Rows of inputs, beside a call that
    // is still to be made, are gone over by `at` and `same_answer`.
    pub fn all_give<T, E>(&mut self, rows: &[(u32, Result<T, E>, Result<T, u8>)])
    where
        T: Copy + PartialEq + Display + Default,
        E: Copy + Into<u8>,
    {
        for &(case, got, wanted) in rows {
            self.at(case).same_answer(got, wanted);
        }
    }

    // The line of the group that has this name.
    pub fn print(&self, name: &str) {
        let agreed = self.agreed;
        let _ = writeln!(Output, "{name} {agreed} agree");
    }
}

// The cases of a group, which has a name; they can be run on any tally. Cases that capture what they need are no function: call them on a new
// tally, whose `print` writes the group's line.
#[derive(Drop)]
pub struct Cases<'a> {
    pub name: &'a str,
    pub run: fn(&mut Tally),
    ghost callable: { IsAlwaysCallable run },
}

// Runs the cases of a group, and prints its line.
pub fn group(cases: Cases) {
    let mut tally = Tally::new();
    (cases.run)(&mut tally);
    tally.print(cases.name);
}
