// The words of a line.
ghost use Rattle.std.specs.Prelude.{◌≡◌, ◌<◌, ◌≤◌, [], ◌∷◌, length, IfSome, IfNone, Some, None, not};
ghost use Rattle.std.specs.List.{prefix_len};
ghost use Rattle.rst_script.specs.Lines.{is_gap, words, pair_of};

fn gap_len(line: &[u8]) -> usize
    ensures value { result ≡ prefix_len is_gap line.now }
    ensures within { result ≤ length line.now }
{
    line.iter()
        .take_while(|b| **b == b' ' || **b == b'\t')
        .count()
}

fn word_len(line: &[u8]) -> usize
    ensures value { result ≡ prefix_len (λ b. not (is_gap b)) line.now }
    ensures within { result ≤ length line.now }
{
    line.iter()
        .take_while(|b| **b != b' ' && **b != b'\t')
        .count()
}

// The first word, and what stands behind it.
pub(crate) fn split_word(line: &[u8]) -> Option<(&[u8], &[u8])>
    ensures found { IfSome result (λ it. words line.now ≡ it.0.now ∷ words it.1.now) }
    ensures shorter { IfSome result (λ it. length it.1.now < length line.now) }
    ensures none { IfNone result (words line.now ≡ []) }
{
    let start = gap_len(line);
    let behind = &line[start..];
    if behind.is_empty() {
        return None;
    }
    let len = word_len(behind);
    Some((&behind[..len], &behind[len..]))
}

// The words of a line that has two.
pub(crate) fn split_pair(line: &[u8]) -> Option<(&[u8], &[u8])>
    ensures found { IfSome result (λ it. pair_of (words line.now) ≡ Some (it.0.now, it.1.now)) }
    ensures none { IfNone result (pair_of (words line.now) ≡ None) }
{
    let (first, rest) = split_word(line)?;
    let (second, rest) = split_word(rest)?;
    match split_word(rest) {
        None => Some((first, second)),
        Some(_) => None,
    }
}
