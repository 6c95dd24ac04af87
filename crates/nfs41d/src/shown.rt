//! How texts and numbers are shown to whoever started the program.

use std::fmt;
use std::fmt::Write;

/// A text, with a `?` for each sign that cannot be printed.
#[derive(Clone, Copy)]
pub struct Shown<'a>(pub &'a str);

impl fmt::Display for Shown<'_> {
    fn fmt<W: fmt::Write>(&self, f: &mut fmt::Formatter<W>) -> fmt::Result {
        for sign in self.0.chars() {
            f.write_char(if sign.is_control() { '?' } else { sign })?;
        }
        Ok(())
    }
}

/// A number in groups of three digits.
#[derive(Clone, Copy)]
pub struct Grouped(pub u64);

impl fmt::Display for Grouped {
    fn fmt<W: fmt::Write>(&self, f: &mut fmt::Formatter<W>) -> fmt::Result {
        let groups = [
            self.0 / 1_000_000_000_000,
            self.0 / 1_000_000_000 % 1_000,
            self.0 / 1_000_000 % 1_000,
            self.0 / 1_000 % 1_000,
            self.0 % 1_000,
        ];
        let mut is_begun = false;
        for (at, group) in groups.iter().enumerate() {
            if is_begun {
                write!(f, ",{group:03}")?;
            } else if *group > 0 || at == 4 {
                write!(f, "{group}")?;
                is_begun = true;
            }
        }
        Ok(())
    }
}
