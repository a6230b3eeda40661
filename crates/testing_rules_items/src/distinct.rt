//! Texts that are all different.
ghost use Rattle.std.specs.Prelude.{◌≡◌, map};
ghost use Rattle.std.specs.List.{list_any};
ghost use Rattle.std.specs.Str.{bytes_eq};
ghost use Rattle.testing_rules_items.specs.Distinct.{is_distinct};

/// Whether all texts are different.
pub fn are_distinct(texts: &[&str]) -> bool
    ensures { result ≡ is_distinct (map (λ t. t.now) texts.now) }
{
    'texts: for (i, text) in texts.iter().enumerate() {
        if contains_text(&texts[i + 1..], text) {
            return false;
        }
    }
    true
}

fn contains_text(texts: &[&str], text: &str) -> bool
    ensures { result ≡ list_any (bytes_eq text.now) (map (λ t. t.now) texts.now) }
{
    'texts: for other in texts {
        if text == *other {
            return true;
        }
    }
    false
}
