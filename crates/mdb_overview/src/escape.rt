//! Texts and names escaped for HTML.

ghost use Rattle.std.specs.Prelude.{◌≡◌, IfOk, string_bytes};
ghost use Rattle.std.specs.List.{flat_map};
ghost use Rattle.std.specs.Str.{chars};
ghost use Rattle.mdb_overview.specs.Escapes.{escape};

use mdb_records::shown::ShownText;
use std::alloc::{AllocError, Global};

/// A text with `<`, `>`, `&` and `"` escaped for HTML.
pub fn escape_text(alloc: Global, text: &str) -> Result<String, AllocError>
    ensures { IfOk result (λ escaped. string_bytes escaped ≡ flat_map escape (chars text.now)) }
{
    let mut escaped = String::new(alloc);
    for c in text.chars() {
        match c {
            '<' => escaped.push_str("&lt;")?,
            '>' => escaped.push_str("&gt;")?,
            '&' => escaped.push_str("&amp;")?,
            '"' => escaped.push_str("&quot;")?,
            _ => escaped.push(c)?,
        }
    }
    Ok(escaped)
}

/// A name in HTML, with its control characters as `\u{..}`.
pub(crate) fn escaped_name(alloc: Global, name: &str) -> Result<String, AllocError> {
    let shown = format!(in alloc; "{}", ShownText(name))?;
    escape_text(alloc, shown.as_str())
}
