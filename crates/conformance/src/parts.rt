//! Parts of answers, printed one after another.

use cases_of_values::output::Output;
use cases_of_values::printing::put_between;

/// What is printed in a row with others.
pub(crate) trait Part {
    fn put(&self, out: &mut Output);
}

/// Parts with a separator between each and the next.
pub(crate) fn put_all<T: Part>(out: &mut Output, separator: &str, parts: &[T]) {
    let mut first = true;
    for part in parts {
        put_between(out, first, separator);
        first = false;
        part.put(out);
    }
}
