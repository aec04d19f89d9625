// Words that spaces separate.

ghost use Rattle.std.specs.Prelude.{◌≡◌, ◌≤◌, ◌<◌, ◌+◌, true, [], length, drop, slice_index};
ghost use Rattle.std.specs.List.{prefix_len};
ghost use Rattle.geom.specs.CifLabels.{label_words};
ghost use Rattle.cif_labels.specs.Words.{is_inside_word, put_word};

/// The first word from here on, and the place behind it; no bytes where there is none.
pub fn word_here(text: &[u8], at: usize) -> (&[u8], usize)
    requires { at ≤ length text.now }
    ensures words { label_words (drop at text.now) ≡ put_word result.0.now (label_words (drop result.1 text.now)) }
    ensures last { result.0.now ≡ [] → result.1 ≡ length text.now }
    ensures within { result.1 ≤ length text.now }
{
    let from = behind_spaces(text, at);
    let to = behind_word(text, from);
    (&text[from..to], to)
}

/// The place behind the spaces that stand here.
fn behind_spaces(text: &[u8], at: usize) -> usize
    requires { at ≤ length text.now }
    ensures words { label_words (drop result text.now) ≡ label_words (drop at text.now) }
    ensures stop { result < length text.now → is_inside_word (slice_index text.now result) ≡ true }
    ensures within { result ≤ length text.now }
{
    let mut from = at;
    while from < text.len() && text[from] == b' ' {
        from += 1;
    }
    from
}

/// The place behind the word that stands here.
fn behind_word(text: &[u8], at: usize) -> usize
    requires { at ≤ length text.now }
    ensures place { result ≡ at + prefix_len is_inside_word (drop at text.now) }
    ensures order { at ≤ result }
    ensures within { result ≤ length text.now }
{
    let mut to = at;
    while to < text.len() && text[to] != b' ' {
        to += 1;
    }
    to
}
