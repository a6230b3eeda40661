//! What follows of plans, for all lists.

ghost use Rattle.std.specs.Prelude.{◌≡◌, ◌↔◌, ℕ, Bool, List, [], Contains, length};
ghost use Rattle.archive_plan.specs.declared.items.Item.{Item};
ghost use Rattle.archive_plan.specs.declared.plan.Plan.{Plan};
ghost use Rattle.archive_plan.specs.declared.plan.PlanFault.{PlanFault};
ghost use Rattle.archive_plan.specs.declared.sync.Due.{Due};
ghost use Rattle.archive_plan.specs.Items.{AreInOrder};
ghost use Rattle.archive_plan.specs.Plan.{IsPlan, IsCrowd, IsFault, RefusesAll};
ghost use Rattle.archive_plan.specs.Sync.{IsSync, IsTold, IsUnstable, RefusesDue, leaving_unstable};

/// If `plan_of` returns a fault other than `NoMemory`, there is no plan.
pub fn fault_is_a_reason()
    ensures { (testing suite from : List Item) (gone : ℕ) (back : Bool) (fault : PlanFault) → IsFault testing suite from gone back fault → RefusesAll testing suite from gone back fault }
{}

/// If the suite has what testing has, a plan is empty. So a second plan after the first is empty.
pub fn second_is_empty()
    ensures { (testing suite from : List Item) (gone : ℕ) (back : Bool) (plan : Plan) → IsPlan testing suite from gone back plan → ((x : Item) → Contains suite x ↔ Contains testing x) → (plan.copies.items ≡ []) × (plan.removals.items ≡ []) }
{}

/// If `sync_of` returns a fault other than `NoMemory`, nothing can be due that its contract allows.
pub fn crowd_is_a_reason()
    ensures { (told index dropped : List Item) (gone : ℕ) (fault : PlanFault) → IsCrowd (length (leaving_unstable told index dropped)) gone fault → RefusesDue told index dropped gone fault }
{}

/// If unstable has what the index has, nothing is due, and nothing is left.
pub fn nothing_is_due()
    ensures { (told index dropped : List Item) (gone : ℕ) (due : Due) → IsSync told index dropped gone due → ((x : Item) → IsUnstable told dropped x ↔ Contains index x) → (due.tells.items ≡ []) × (due.drops.items ≡ []) × (due.left.items ≡ []) }
{}

/// If unstable is what it is to be after the mail of what is due, nothing is due any more.
pub fn second_has_no_lines()
    ensures { (told index dropped told2 dropped2 : List Item) (gone gone2 : ℕ) (due due2 : Due) → AreInOrder told → AreInOrder index → IsSync told index dropped gone due → IsTold told dropped due told2 dropped2 → IsSync told2 index dropped2 gone2 due2 → (due2.tells.items ≡ []) × (due2.drops.items ≡ []) }
{}
