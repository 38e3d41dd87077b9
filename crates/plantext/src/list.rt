// Lists in text.
ghost use Rattle.std.specs.Iterator.{IsFinite};

use std::fmt;

// Writes each item after a space, with a mark between two of them, or a word where there is none.
pub(crate) fn write_list<W, I, F>(
    f: &mut fmt::Formatter<W>,
    mut items: I,
    between: &str,
    none: &str,
    write_item: F,
) -> fmt::Result
where
    W: fmt::Write,
    I: Iterator + Drop,
    I::Item: Drop,
    F: Fn(&mut fmt::Formatter<W>, I::Item) -> fmt::Result + Drop,
    requires can { I.can_next items }
    requires ends { IsFinite (I.remaining items) }
    requires callable { F.IsAlwaysCallable write_item }
{
    let Some(first) = items.next() else {
        return write!(f, " {none}");
    };
    write!(f, " ")?;
    write_item(f, first)?;
    for item in items {
        write!(f, "{between} ")?;
        write_item(f, item)?;
    }
    Ok(())
}
