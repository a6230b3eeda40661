//! Names of architectures, tested.
ghost use Rattle.std.specs.Prelude.{◌≡◌, map};
ghost use Rattle.std.specs.List.{list_all};
ghost use Rattle.deb_control.specs.Binary.{is_architecture};
ghost use Rattle.deb_control.specs.Relations.{is_qualifier_char};
ghost use Rattle.testing_rules_items.specs.Archs.{are_archs, is_arch_name, is_reserved};

use crate::distinct::are_distinct;
use deb_control::{is_lower_or_digit, is_qualifier_char};

/// Whether there is at least one name, each is an architecture's, and all are different.
#[tactic(auto, unfolding(crate::specs::Archs::are_archs))]
pub fn are_archs(names: &[&str]) -> bool
    ensures { result ≡ are_archs (map (λ n. n.now) names.now) }
{
    !names.is_empty() && are_arch_names(names) && are_distinct(names)
}

fn are_arch_names(names: &[&str]) -> bool
    ensures { result ≡ list_all is_arch_name (map (λ n. n.now) names.now) }
{
    'names: for name in names {
        if !is_arch(name) {
            return false;
        }
    }
    true
}

fn is_arch(name: &str) -> bool
    ensures { result ≡ is_arch_name name.now }
{
    is_architecture(name.as_bytes()) && !is_reserved(name)
}

#[tactic(auto, unfolding(deb_control::specs::Binary::is_architecture))]
fn is_architecture(name: &[u8]) -> bool
    ensures { result ≡ is_architecture name.now }
{
    match name {
        [first, rest @ ..] => is_lower_or_digit(*first) && are_name_chars(rest) && rest.len() <= 31,
        [] => false,
    }
}

fn are_name_chars(chars: &[u8]) -> bool
    ensures { result ≡ list_all is_qualifier_char chars.now }
{
    chars.iter().all(|c| is_qualifier_char(*c))
}

fn is_reserved(name: &str) -> bool
    ensures { result ≡ is_reserved name.now }
{
    name == "all" || name == "any" || name == "source"
}
