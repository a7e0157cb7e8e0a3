//! The parts of a text between separators.
ghost use Rattle.std.specs.Prelude.{◌≡◌, ◌==◌, [], ◌∷◌};
ghost use Rattle.std.specs.Option.{option_map_or};
ghost use Rattle.std.specs.List.{slice_split};
ghost use Rattle.std.specs.Iterator.{item_count};

/// The parts of a text between its separators, one after another: the lines of a script, the words
/// of a line, the entries of a list. A text has one part more than it has separators, and a part
/// may be empty.
#[derive(Drop)]
pub struct Parts<'a> {
    rest: Option<&'a [u8]>,
    at: u8,
}

impl<'a> Parts<'a> {
    ghost use Rattle.fx_language.specs.Parts.{parts_left};

    /// Creates the parts of a text, separated by the byte `at`.
    pub fn new(text: &'a [u8], at: u8) -> Parts<'a>
        ensures { parts_left result ≡ slice_split (λ b. b == at) text.now }
    {
        Parts {
            rest: Some(text),
            at,
        }
    }
}

impl<'a> Iterator for Parts<'a> {
    ghost use Rattle.fx_language.specs.Parts.{parts_left, YieldsFirstPart};

    type Item = &'a [u8];

    ghost next_gives = { YieldsFirstPart };

    ghost remaining = { item_count parts_left };

    fn next(&mut self) -> Option<&'a [u8]> {
        let rest = self.rest?;
        let (part, others) = first_part(rest, self.at);
        self.rest = others;
        Some(part)
    }
}

// Returns the first part of a text, and the rest after the separator, if there is one.
fn first_part(text: &[u8], at: u8) -> (&[u8], Option<&[u8]>)
    ensures { slice_split (λ b. b == at) text.now
        ≡ result.0.now ∷ option_map_or (λ rest. slice_split (λ b. b == at) rest.now) result.1 [] }
{
    for (i, b) in text.iter().enumerate() {
        if *b == at {
            return (&text[..i], Some(&text[i + 1..]));
        }
    }
    (text, None)
}
