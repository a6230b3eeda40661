//! A bug with a number, found by binary search if the bugs are ordered by number.

ghost use Rattle.std.specs.Prelude.{◌≡◌, ◌==◌, true, filter, ltb, option_copied, option_to_list};
ghost use Rattle.testing_rules_model.specs.Boxed.{unboxed};
ghost use Rattle.testing_rules_model.specs.steps.FactOrder.{AreByNumber};

use testing_rules_facts::place_of_bug;
use testing_rules_model::BugIn;

/// Whether the bugs are in ascending order of their numbers, each number once, so that `bug_at` may use binary search.
/// If the answer is yes, they are; a no proves nothing.
pub fn are_by_number(bugs: &[Box<BugIn>]) -> bool
    ensures { result ≡ true → AreByNumber (unboxed bugs.now) }
{
    bugs.is_sorted_by(
        |left: &Box<BugIn>, right: &Box<BugIn>| -> bool
            ensures { result ≡ ltb left.now.value.bug right.now.value.bug }
        { left.bug < right.bug },
    )
}

/// The one bug with the number.
pub fn bug_at(bugs: &[Box<BugIn>], number: u32) -> Option<&BugIn>
    requires { AreByNumber (unboxed bugs.now) }
    ensures { option_to_list (option_copied result) ≡ filter (λ b. b.bug == number) (unboxed bugs.now) }
{
    match place_of_bug(bugs, number) {
        Ok(place) => {
            let bug: &BugIn = &bugs[place];
            Some(bug)
        }
        Err(_) => None,
    }
}
