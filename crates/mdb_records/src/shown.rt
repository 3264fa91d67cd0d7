//! Text that is safe to print to a terminal.

use std::fmt;

/// A text that is printed with each control character as `\u{..}`, so that none acts on a terminal.
#[derive(Clone, Copy)]
pub struct ShownText<'a>(pub &'a str);

impl fmt::Display for ShownText<'_> {
    fn fmt<W: fmt::Write>(&self, f: &mut fmt::Formatter<W>) -> fmt::Result {
        for c in self.0.chars() {
            if c.is_control() {
                let code = c as u32;
                write!(f, "\\u{{{code:x}}}")?;
            } else {
                f.write_char(c)?;
            }
        }
        Ok(())
    }
}
