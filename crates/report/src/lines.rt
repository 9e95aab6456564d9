// The lines of a text.
ghost use Rattle.std.specs.Prelude.{◌≡◌, ◌∷◌, ◌==◌, [], MatchOption, position};
ghost use Rattle.std.specs.Iterator.{YieldsFirstRef, item_count};
ghost use Rattle.report.specs.Text.{lines};

// Where the first line of a text ends, if it has an end.
fn line_end(text: &[u8]) -> Option<usize>
    ensures { result ≡ position (λ x. x == 10) text.now }
{
    text.iter().position(|x| *x == b'\n')
}

// The first line of a text, without its end, and what follows it.
#[tactic(auto, using(std::proofs::lemmas::List::take_rest, crate::proofs::Cutting::line_at, crate::proofs::Cutting::line_whole))]
pub(crate) fn split_line(text: &[u8]) -> Option<(&[u8], &[u8])>
    ensures { MatchOption result (lines text.now ≡ []) (λ p. lines text.now ≡ p.0.now ∷ lines p.1.now) }
{
    match line_end(text) {
        Some(end) => Some((&text[..end], &text[end + 1..])),
        None if text.is_empty() => None,
        None => Some((text, &[])),
    }
}

// The lines that are left of a text. A line keeps each byte but its end, a carriage return too: `str::lines` drops it, and
// `split` answers one line more where the text ends in an end.
#[derive(Drop)]
pub(crate) struct Lines<'a>(pub &'a [u8]);

impl<'a> Iterator for Lines<'a> {
    type Item = &'a [u8];

    ghost next_gives = { YieldsFirstRef (λ left. lines left.0.now) };

    ghost remaining = { item_count (λ left. lines left.0.now) };

    fn next(&mut self) -> Option<&'a [u8]> {
        let (line, rest) = split_line(self.0)?;
        self.0 = rest;
        Some(line)
    }
}
