// A text split at a separator.

ghost use Rattle.std.specs.Prelude.{◌≡◌, ℕ, List, [], ◌∷◌, MatchOption, None};
ghost use Rattle.form_text.specs.Field.{fields_of, fields_left, one_field, two_fields, three_fields};

// The fields of a text, taken one after the other. The rest is the text of those that are not taken yet; there is none when all are.
#[derive(Clone, Copy)]
pub struct Fields<'a> {
    rest: Option<&'a [u8]>,
    separator: u8,
}

impl<'a> Fields<'a> {
    pub fn of(text: &'a [u8], separator: u8) -> Fields<'a>
        ensures { fields_left result ≡ fields_of separator text.now }
    {
        Fields {
            rest: Some(text),
            separator,
        }
    }

    // The next field, if there is one. No Iterator's: this one says what is left, by which `end` and each form are stated.
    #[tactic(auto, using(crate::proofs::Cuts::cut_at, crate::proofs::Cuts::cut_nowhere, std::proofs::lemmas::Grind::common_steps))]
    pub fn next(&mut self) -> Option<&'a [u8]>
        ensures { MatchOption result (fields_left self.old ≡ []) (λ f. fields_left self.old ≡ f.now ∷ fields_left self.new) }
    {
        let rest = self.rest?;
        // The text comes from outside: it may have no separator.
        match scan::find(rest, 0, self.separator) {
            Some(end) => {
                self.rest = Some(&rest[end + 1..]);
                Some(&rest[..end])
            }
            None => {
                self.rest = None;
                Some(rest)
            }
        }
    }

    // Nothing, unless every field is taken.
    pub fn end(&self) -> Option<()>
        ensures { MatchOption result ((f : List ℕ) × (fs : List (List ℕ)) × (fields_left self.now ≡ f ∷ fs)) (λ _. fields_left self.now ≡ []) }
    {
        // The text comes from outside: fields may be left.
        match self.rest {
            Some(_) => None,
            None => Some(()),
        }
    }

    // What is left, where it is exactly one field, exactly two or exactly three. No plainer as arrays: a field would have no name in the clause.

    pub fn one(mut self) -> Option<&'a [u8]>
        ensures { MatchOption result (one_field (fields_left self.entry) ≡ None) (λ f. fields_left self.entry ≡ f.now ∷ []) }
    {
        let first = self.next()?;
        self.end()?;
        Some(first)
    }

    pub fn two(mut self) -> Option<(&'a [u8], &'a [u8])>
        ensures { MatchOption result (two_fields (fields_left self.entry) ≡ None) (λ p. fields_left self.entry ≡ p.0.now ∷ p.1.now ∷ []) }
    {
        let first = self.next()?;
        let second = self.one()?;
        Some((first, second))
    }

    pub fn three(mut self) -> Option<(&'a [u8], &'a [u8], &'a [u8])>
        ensures { MatchOption result (three_fields (fields_left self.entry) ≡ None) (λ p. fields_left self.entry ≡ p.0.now ∷ p.1.now ∷ p.2.now ∷ []) }
    {
        let first = self.next()?;
        let (second, third) = self.two()?;
        Some((first, second, third))
    }
}
