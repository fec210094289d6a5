//! Words that are looked up in a table.

ghost use Rattle.std.specs.Prelude.{◌≡◌, map};
ghost use Rattle.spin_grammar.specs.Lookup.{look_up};

/// What the first of the rows with this word says, if one has it.
///
/// It looks at the rows one by one, so the words that come most often stand first in a long table.
pub fn look_up<A: Copy>(word: &[u8], rows: &[(&[u8], A)]) -> Option<A>
    ensures { result ≡ look_up word.now (map (λ row. (row.0.now, row.1)) rows.now) }
{
    for row in rows {
        if word == row.0 {
            return Some(row.1);
        }
    }
    None
}
