ghost use Rattle.std.specs.Prelude.{◌≡◌, ℕ, ◌+◌, ◌-◌, ◌^◌, ◌<◌, ◌≤◌, List, [], ◌∷◌, length, min, OnOk, IfOk};
ghost use Rattle.std.specs.List.{range_with_len};
ghost use Rattle.testing_install.specs.steps.Ground.{IsGround};
ghost use Rattle.testing_install.specs.Rows.{binaries};
ghost use Rattle.testing_install.specs.steps.Progress.{IsWork};

use crate::Row;
use crate::claims::Claim;
use crate::find::find;
use crate::index::NameIndex;
use crate::state::State;
use deb_version::NoMemory;
use std::alloc::Global;

/// What the work reads and doesn't change.
#[derive(Drop)]
pub struct Ground<'a, 'r> {
    pub rows: &'r [Row<'a>],
    pub claims: Vec<Claim<'a>>,
    pub providers: NameIndex,
}

// Looks at a claim that may have rested on a lost row: it now rests on a marked row, or its row loses its mark.
fn look(
    ground: &Ground<'_, '_>,
    state: &mut State,
    claim: usize,
    lost: Option<usize>,
) -> Result<(), NoMemory>
    requires ground { IsGround (binaries ground.now.rows.now) ground.now.claims.items ground.now.providers }
    requires claim { claim < length ground.now.claims.items }
    requires marks { length state.old.marks ≡ length ground.now.rows.now }
    requires resting { length state.old.resting ≡ length ground.now.rows.now }
    ensures step { OnOk result ((todo : List ℕ) → IsWork (binaries ground.now.rows.now) state.old (claim ∷ todo)
        → IsWork (binaries ground.now.rows.now) state.new todo) }
    ensures counted { OnOk result (state.new.looks ≡ min (state.old.looks + 1) (2 ^ 64 - 1)) }
    ensures turns { OnOk result (state.new.turns ≡ state.old.turns) }
{
    state.count_look();
    let Claim { owner, clause } = ground.claims[claim];
    match find(ground.rows, state.marks(), &ground.providers, clause, lost) {
        Some(place) => state.rest(claim, place),
        None => {
            if state.marks()[owner] {
                state.lose(owner)?;
            }
            Ok(())
        }
    }
}

// Looks at each of the claims that may have rested on a lost row.
fn check_clauses(
    ground: &Ground<'_, '_>,
    state: &mut State,
    claims: &[usize],
    lost: Option<usize>,
) -> Result<(), NoMemory>
    requires ground { IsGround (binaries ground.now.rows.now) ground.now.claims.items ground.now.providers }
    requires work { IsWork (binaries ground.now.rows.now) state.old claims.now }
    ensures done { OnOk result (IsWork (binaries ground.now.rows.now) state.new []) }
    ensures counted { OnOk result (min (state.old.looks + length claims.now) (2 ^ 64 - 1) ≤ state.new.looks) }
    ensures turns { OnOk result (state.new.turns ≡ state.old.turns) }
{
    for claim in claims {
        look(ground, state, *claim, lost)?;
    }
    Ok(())
}

// Gives each waiting row its turn, until none waits.
fn propagate(alloc: Global, ground: &Ground<'_, '_>, state: &mut State) -> Result<(), NoMemory>
    requires ground { IsGround (binaries ground.now.rows.now) ground.now.claims.items ground.now.providers }
    requires work { IsWork (binaries ground.now.rows.now) state.old [] }
    requires small { length ground.now.rows.now < 2 ^ 64 }
    ensures done { OnOk result (IsWork (binaries ground.now.rows.now) state.new []) }
    ensures empty { OnOk result (state.new.waiting ≡ []) }
    ensures counted { OnOk result (min state.old.looks (2 ^ 64 - 1) ≤ state.new.looks) }
{
    while let Some(lost) = state.next_turn(alloc) {
        check_clauses(ground, state, &lost.claims, Some(lost.place))?;
    }
    Ok(())
}

// The numbers of all claims.
fn all_claims(alloc: Global, count: usize) -> Result<Vec<usize>, NoMemory>
    ensures { IfOk result (λ claims. claims.items ≡ range_with_len 0 count) }
{
    let mut claims = Vec::new(alloc);
    for claim in 0..count {
        claims.push(claim)?;
    }
    Ok(claims)
}

/// The state after all turns.
pub fn worked(alloc: Global, ground: &Ground<'_, '_>) -> Result<State, NoMemory>
    requires { IsGround (binaries ground.now.rows.now) ground.now.claims.items ground.now.providers }
    ensures done { IfOk result (λ s. IsWork (binaries ground.now.rows.now) s []) }
    ensures empty { IfOk result (λ s. s.waiting ≡ []) }
    ensures counted { IfOk result (λ s. min (length ground.now.claims.items) (2 ^ 64 - 1) ≤ s.looks) }
{
    let mut state = State::new(alloc, ground.rows.len())?;
    let claims = all_claims(alloc, ground.claims.len())?;
    check_clauses(ground, &mut state, &claims, None)?;
    propagate(alloc, ground, &mut state)?;
    Ok(state)
}
