// The attributes of an element, as words and numbers. What they are is told where an element stands at `at`.
ghost use Rattle.std.specs.Prelude.{◌≡◌};
ghost use Rattle.nodes.specs.Places.{Stands, the};
ghost use Rattle.grammar.specs.Parser.{same_bytes};
ghost use Rattle.maps.specs.Fields.{attribute_word, number_seen};

// The attribute's value is the word; a missing one is empty.
pub fn attribute_is(text: &[u8], at: usize, name: &[u8], word: &[u8]) -> bool
    ensures { Stands text.now at
        → result ≡ same_bytes (attribute_word name.now (the text.now at)) word.now }
{
    inside::values::attribute_is(text, at, name, word)
}

// The attribute's number from lo to hi, 0 where there is none.
pub fn attribute_number(text: &[u8], at: usize, name: &[u8], lo: u64, hi: u64) -> u64
    ensures { Stands text.now at
        → result ≡ number_seen lo hi (attribute_word name.now (the text.now at)) }
{
    match inside::attributes::attribute(text, at, name) {
        Some(v) => match number_values::whole_value(text, v, lo, hi) {
            Some(n) => n,
            None => 0,
        },
        None => 0,
    }
}
