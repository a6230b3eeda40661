//! What no group frees: blocks of lines. Each shows that its source can't move while those of the later blocks don't.

ghost use Rattle.std.specs.Prelude.{◌≡◌, ◌<◌, ◌++◌, ◌∷◌, [], true, false, length, IfOk, IfSome, OnOk, codes, string_bytes};
ghost use Rattle.std.specs.List.{list_any};
ghost use Rattle.std.specs.Option.{option_map_or};
ghost use Rattle.std.specs.Str.{bytes_eq};
ghost use Rattle.testing_rules_excuses.specs.States as states;
ghost use Rattle.testing_rules_model.specs.Boxed.{unboxed};
ghost use Rattle.testing_rules_model.specs.FactOrder.{AreBySource};
ghost use Rattle.testing_rules_model.specs.JudgedRows.{lent, row_of};
ghost use Rattle.testing_rules_model.specs.Moves as moves;
ghost use Rattle.testing_rules_model.specs.Unstable.{built_rows};
ghost use Rattle.testing_rules_refusals.specs.steps.Standing as standing;
ghost use Rattle.testing_rules_refusals.specs.Stuck as words;
ghost use Rattle.testing_rules_refusals.specs.Texts as texts;
ghost use Rattle.testing_rules_refusals.specs.Told as told_words;
ghost use Rattle.testing_rules_reports.specs.Reports.{offender_text};
ghost use Rattle.testing_rules_suites.specs.steps.JudgedRows.{answers};

use crate::changes::text_of;
use crate::living::{coming_rows, has_key_of, in_key_order, living, rows_that_may_stand};
use crate::needs::need_at;
use crate::proof_text::{Telling, is_current_in};
use crate::refusal::{Refusal, judged_rows};
use crate::shown::steps_for;
use deb_control::{Clause, Text};
use deb_version::NoMemory;
use std::alloc::{AllocError, Global};
use testing_install::meets;
use testing_rules_excuses::excuse_of;
use testing_rules_facts::{Facts, Unstable, built_rows};
use testing_rules_items::Archs;
use testing_rules_live::{fails_on, is_of, is_row_of};
use testing_rules_model::{Excuse, LentRow, Offender};
use testing_rules_moves::Basis;
use testing_rules_suites::{RowAnswer, Testing, is_watched_on, lend_rows};

/// A candidate that a search considers dead: the package whose row its move would break on an architecture, and the
/// round of the search that found it. Its death depends only on candidates of earlier rounds.
#[derive(Drop)]
pub struct Suspect {
    pub name: Text,
    pub arch: u32,
    pub package: Text,
    pub round: u32,
}

/// A run behind its hints: its architectures, facts and excuses, and testing after its removals and its groups.
#[derive(Clone, Copy)]
pub struct BehindHints<'g> {
    pub archs: &'g Archs,
    pub facts: &'g Facts,
    pub excuses: &'g [Excuse],
    pub testing: &'g Testing,
}

/// The input of blocks: the architectures, unstable, the excuses of the run, and a testing with its rows.
#[derive(Clone, Copy)]
struct BlockInput<'g, 'a> {
    archs: &'g Archs,
    unstable: Unstable<'g, 'a>,
    excuses: &'g [Excuse],
    testing: &'g Testing,
    rows: &'g [LentRow<'a>],
}

/// The row is watched on the architecture and has the package's name.
fn is_watched_of(row: &LentRow, arch: u32, package_name: &str) -> bool
    ensures name { result ≡ true → (row_of row.now).binary.name ≡ package_name.now }
    ensures watched { result ≡ true → moves.is_watched_on arch (row_of row.now) ≡ true }
{
    row.binary.name.as_str() == package_name && is_watched_on(arch, row)
}

/// The row is watched on the architecture, has the package's name, and belongs to the source.
fn is_own(row: &LentRow, arch: u32, package_name: &str, name: &str) -> bool
    ensures name { result ≡ true → (row_of row.now).binary.name ≡ package_name.now }
    ensures watched { result ≡ true → moves.is_watched_on arch (row_of row.now) ≡ true }
    ensures own { result ≡ true → bytes_eq (row_of row.now).binary.source name.now ≡ true }
{
    is_watched_of(row, arch, package_name) && is_of(row, name)
}

/// The first place of a watched row of the package that belongs to the source.
fn own_place(rows: &[LentRow], arch: u32, package_name: &str, name: &str) -> Option<usize>
    ensures { IfSome result (λ place. standing.IsOwnAt arch package_name.now (lent rows.now) name.now place) }
{
    for place in 0..rows.len() {
        if is_own(&rows[place], arch, package_name, name) {
            return Some(place);
        }
    }
    None
}

/// The row was installable.
fn worked(before: &[RowAnswer], arch: u32, row: &LentRow) -> bool
    ensures { result ≡ true → moves.was_installable (answers before.now) (row_of row.now) ≡ true }
{
    let lost = RowAnswer {
        row: *row,
        is_installable: false,
    };
    fails_on(arch, &[], before, lost)
}

/// None of these sources owns the row, and none of these rows has its key.
fn is_left(row: &LentRow, live: &[Text], coming: &[LentRow]) -> bool
    ensures own { result ≡ true → moves.is_row_of live.now (row_of row.now) ≡ false }
    ensures key { result ≡ true → list_any (moves.is_same_key (row_of row.now)) (lent coming.now) ≡ false }
{
    !is_row_of(live, row) && !has_key_of(coming, row)
}

/// The row is watched on the architecture, has the package's name, was installable, and stays with these sources.
fn is_staying(
    row: &LentRow,
    arch: u32,
    package_name: &str,
    before: &[RowAnswer],
    live: &[Text],
    coming: &[LentRow],
) -> bool
    ensures name { result ≡ true → (row_of row.now).binary.name ≡ package_name.now }
    ensures watched { result ≡ true → moves.is_watched_on arch (row_of row.now) ≡ true }
    ensures worked { result ≡ true → moves.was_installable (answers before.now) (row_of row.now) ≡ true }
    ensures own { result ≡ true → moves.is_row_of live.now (row_of row.now) ≡ false }
    ensures key { result ≡ true → list_any (moves.is_same_key (row_of row.now)) (lent coming.now) ≡ false }
{
    is_watched_of(row, arch, package_name)
        && is_left(row, live, coming)
        && worked(before, arch, row)
}

/// The first place of a watched row of the package that stays.
fn staying_place(
    rows: &[LentRow],
    arch: u32,
    package_name: &str,
    before: &[RowAnswer],
    live: &[Text],
    coming: &[LentRow],
) -> Option<usize>
    ensures { IfSome result (λ place. standing.IsStayingAt arch package_name.now (lent rows.now) (answers before.now) live.now (lent coming.now) place) }
{
    for place in 0..rows.len() {
        if is_staying(&rows[place], arch, package_name, before, live, coming) {
            return Some(place);
        }
    }
    None
}

/// The first place of a row of the suspect's package that is due: its own, or else one that stays.
fn due_place(
    alloc: Global,
    input: &BlockInput<'_, '_>,
    live: &[Text],
    coming: &[LentRow],
    rows: &[LentRow],
    suspect: &Suspect,
) -> Result<Option<usize>, NoMemory>
    requires old { lent input.now.rows.now ≡ input.now.testing.now.rows }
    requires coming { lent coming.now ≡ words.coming_rows (unboxed input.now.unstable.sources.now) (lent input.now.unstable.rows.now) live.now }
    requires rows { lent rows.now ≡ moves.rows_on suspect.now.arch (words.may_stand (unboxed input.now.unstable.sources.now) (lent input.now.unstable.rows.now) live.now suspect.now.name input.now.testing.now) }
    ensures { IfOk result (λ found. IfSome found (λ place. standing.IsDueAt (unboxed input.now.unstable.sources.now) (lent input.now.unstable.rows.now) live.now input.now.testing.now
        suspect.now.name (record { arch = suspect.now.arch; «package» = suspect.now.«package» }) (lent rows.now) place)) }
{
    let (arch, package) = (suspect.arch, suspect.package.as_str());
    if let Some(place) = own_place(rows, arch, package, suspect.name.as_str()) {
        return Ok(Some(place));
    }
    let before = judged_rows(alloc, arch, input.rows)?;
    Ok(staying_place(rows, arch, package, &before, live, coming))
}

/// Some of the names is this one.
fn is_among(names: &[Text], name: &str) -> bool
    ensures { result ≡ list_any (bytes_eq name.now) names.now }
{
    for other in names {
        if name == other.as_str() {
            return true;
        }
    }
    false
}

/// The suspect's row and the steps that prove that it isn't installable among the rows that may be present while these
/// live.
fn shown_among<'a>(
    alloc: Global,
    input: &BlockInput<'_, 'a>,
    live: &[Text],
    suspect: &Suspect,
) -> Result<Option<Refusal<'a>>, NoMemory>
    requires sources { AreBySource (unboxed input.now.unstable.sources.now) }
    requires old { lent input.now.rows.now ≡ input.now.testing.now.rows }
    requires lives { list_any (bytes_eq suspect.now.name) live.now ≡ true }
    requires listed { suspect.now.arch < length input.now.archs.now }
    ensures { IfOk result (λ found. IfSome found (λ r. standing.IsBlockOf input.now.archs.now (unboxed input.now.unstable.sources.now) (lent input.now.unstable.rows.now) live.now input.now.testing.now
        suspect.now.name r.offender (lent r.rows.items) r.steps.items)) }
{
    let arch = suspect.arch;
    in_key_order(input.testing);
    let coming = coming_rows(alloc, input.unstable, live)?;
    let rows = rows_that_may_stand(alloc, arch, input.rows, &coming, &suspect.name)?;
    let Some(place) = due_place(alloc, input, live, &coming, &rows, suspect)? else {
        return Ok(None);
    };
    let Some(steps) = steps_for(alloc, &rows, place)? else {
        return Ok(None);
    };
    let package = suspect.package.copy(alloc)?;
    Ok(Some(Refusal {
        offender: Offender { arch, package },
        rows,
        steps,
    }))
}

/// The same, if the suspect is living, and its architecture is listed.
fn block_of<'a>(
    alloc: Global,
    input: &BlockInput<'_, 'a>,
    live: &[Text],
    suspect: &Suspect,
) -> Result<Option<Refusal<'a>>, NoMemory>
    requires sources { AreBySource (unboxed input.now.unstable.sources.now) }
    requires old { lent input.now.rows.now ≡ input.now.testing.now.rows }
    ensures { IfOk result (λ found. IfSome found (λ r. standing.IsBlockOf input.now.archs.now (unboxed input.now.unstable.sources.now) (lent input.now.unstable.rows.now) live.now input.now.testing.now
        suspect.now.name r.offender (lent r.rows.items) r.steps.items)) }
{
    if suspect.arch >= input.archs.len() || !is_among(live, suspect.name.as_str()) {
        return Ok(None);
    }
    shown_among(alloc, input, live, suspect)
}

/// The first line of a block.
fn push_stuck(
    text: &mut String,
    archs: &Archs,
    name: &str,
    version: &str,
    offender: &Offender,
) -> Result<(), AllocError>
    ensures { OnOk result (string_bytes text.new ≡ string_bytes text.old ++ (codes "stuck " ++ name.now ++ 32 ∷ version.now ++ offender_text archs.now offender.now ++ 10 ∷ [])) }
{
    let (arch, package) = (archs.name(offender.arch), offender.package.as_str());
    write!(text, "stuck {name} {version}")?;
    writeln!(text, " uninstallable {arch} {package}")
}

/// The version at which the source would move, by its excuse.
fn version_of<'a>(excuses: &'a [Excuse], name: &str) -> &'a str
    ensures { result.now ≡ option_map_or (λ e. e.unstable) (states.excuse_of excuses.now name.now) (codes "-") }
{
    match excuse_of(excuses, name) {
        Some(excuse) => excuse.unstable.text(),
        None => "-",
    }
}

/// The lines of a block after its first one.
fn lines_of<'a>(
    alloc: Global,
    input: &BlockInput<'_, 'a>,
    dead: &[Text],
    live: &[Text],
    refusal: &Refusal<'a>,
) -> Result<Text, NoMemory>
    requires { AreBySource (unboxed input.now.unstable.sources.now) }
    ensures { IfOk result (λ text. text ≡ texts.refusal_text input.now.testing.now (record { archs = input.now.archs.now; sources = unboxed input.now.unstable.sources.now; excuses = input.now.excuses.now; coming = live.now; stuck = dead.now })
        (told_words.lines_of (lent refusal.now.rows.items) refusal.now.steps.items (moves.rows_on refusal.now.offender.arch (lent input.now.rows.now))
        (moves.rows_on refusal.now.offender.arch (lent input.now.unstable.rows.now)))) }
{
    let telling = Telling {
        archs: input.archs,
        unstable: input.unstable,
        excuses: input.excuses,
        testing: input.testing,
        coming: live,
        stuck: dead,
    };
    text_of(alloc, &telling, input.rows, refusal)
}

/// All lines of a block.
fn block_text<'a>(
    alloc: Global,
    input: &BlockInput<'_, 'a>,
    dead: &[Text],
    live: &[Text],
    name: &str,
    refusal: &Refusal<'a>,
) -> Result<Text, NoMemory>
    requires { AreBySource (unboxed input.now.unstable.sources.now) }
    ensures { IfOk result (λ text. text ≡ words.stuck_line input.now.archs.now input.now.excuses.now (record { name = name.now; offender = refusal.now.offender; steps = refusal.now.steps.items })
        ++ texts.refusal_text input.now.testing.now (record { archs = input.now.archs.now; sources = unboxed input.now.unstable.sources.now; excuses = input.now.excuses.now; coming = live.now; stuck = dead.now })
        (told_words.lines_of (lent refusal.now.rows.items) refusal.now.steps.items (moves.rows_on refusal.now.offender.arch (lent input.now.rows.now))
        (moves.rows_on refusal.now.offender.arch (lent input.now.unstable.rows.now)))) }
{
    let mut text = String::new(alloc);
    let version = version_of(input.excuses, name);
    push_stuck(&mut text, input.archs, name, version, &refusal.offender)?;
    let lines = lines_of(alloc, input, dead, live, refusal)?;
    text.push_str(lines.as_str())?;
    Ok(Text::from_string(text))
}

/// The block of the suspect while these are dead. There is none if the search was wrong about it.
fn told_block(
    alloc: Global,
    input: &BlockInput<'_, '_>,
    dead: &[Text],
    suspect: &Suspect,
) -> Result<Option<Text>, NoMemory>
    requires sources { AreBySource (unboxed input.now.unstable.sources.now) }
    requires old { lent input.now.rows.now ≡ input.now.testing.now.rows }
    ensures { IfOk result (λ found. IfSome found (λ text. standing.IsToldBlock input.now.archs.now (unboxed input.now.unstable.sources.now) (lent input.now.unstable.rows.now) input.now.excuses.now input.now.testing.now
        dead.now suspect.now.name text)) }
{
    let live = living(alloc, input.excuses, input.testing, dead)?;
    let Some(refusal) = block_of(alloc, input, &live, suspect)? else {
        return Ok(None);
    };
    let name = suspect.name.as_str();
    let text = block_text(alloc, input, dead, &live, name, &refusal)?;
    Ok(Some(text))
}

/// Blocks so far: their sources, and their text.
#[derive(Drop)]
struct ToldBlocks {
    names: Vec<Text>,
    text: Text,
}

/// No block yet.
fn no_blocks(alloc: Global) -> ToldBlocks
    ensures names { result.names.items ≡ [] }
    ensures text { result.text ≡ [] }
{
    ToldBlocks {
        names: Vec::new(alloc),
        text: Text::from_string(String::new(alloc)),
    }
}

/// Adds a block before the blocks so far.
fn with_block(
    alloc: Global,
    told: ToldBlocks,
    name: &Text,
    block: &Text,
) -> Result<ToldBlocks, NoMemory>
    ensures names { IfOk result (λ more. more.names.items ≡ name.now ∷ told.names.items) }
    ensures text { IfOk result (λ more. more.text ≡ block.now ++ told.text) }
{
    let text = format!(in alloc; "{}{}", block.as_str(), told.text.as_str())?;
    let mut names = told.names;
    names.insert(0, name.copy(alloc)?)?;
    Ok(ToldBlocks {
        names,
        text: Text::from_string(text),
    })
}

/// Adds the suspect's block before the blocks so far, whose sources count as dead for it.
fn with_block_of(
    alloc: Global,
    input: &BlockInput<'_, '_>,
    told: ToldBlocks,
    suspect: &Suspect,
) -> Result<Option<ToldBlocks>, NoMemory>
    requires sources { AreBySource (unboxed input.now.unstable.sources.now) }
    requires old { lent input.now.rows.now ≡ input.now.testing.now.rows }
    requires told { standing.AreToldBlocks input.now.archs.now (unboxed input.now.unstable.sources.now) (lent input.now.unstable.rows.now) input.now.excuses.now input.now.testing.now
        told.names.items told.text }
    ensures { IfOk result (λ found. IfSome found (λ more. standing.AreToldBlocks input.now.archs.now (unboxed input.now.unstable.sources.now) (lent input.now.unstable.rows.now) input.now.excuses.now input.now.testing.now
        more.names.items more.text)) }
{
    let Some(block) = told_block(alloc, input, &told.names, suspect)? else {
        return Ok(None);
    };
    let more = with_block(alloc, told, &suspect.name, &block)?;
    Ok(Some(more))
}

/// The blocks of the suspects, the first one last; for each, the later ones are dead. There are none if the search was
/// wrong about one of them.
fn told_blocks(
    alloc: Global,
    input: &BlockInput<'_, '_>,
    suspects: &[&Suspect],
) -> Result<Option<ToldBlocks>, NoMemory>
    requires sources { AreBySource (unboxed input.now.unstable.sources.now) }
    requires old { lent input.now.rows.now ≡ input.now.testing.now.rows }
    ensures { IfOk result (λ found. IfSome found (λ told. standing.AreToldBlocks input.now.archs.now (unboxed input.now.unstable.sources.now) (lent input.now.unstable.rows.now) input.now.excuses.now input.now.testing.now
        told.names.items told.text)) }
{
    let mut told = no_blocks(alloc);
    for suspect in suspects {
        match with_block_of(alloc, input, told, *suspect)? {
            Some(more) => told = more,
            None => return Ok(None),
        }
    }
    Ok(Some(told))
}

/// The names of the suspects found in rounds before this one.
fn names_before(alloc: Global, suspects: &[Suspect], round: u32) -> Result<Vec<Text>, NoMemory> {
    let mut names = Vec::new(alloc);
    for suspect in suspects {
        if suspect.round < round {
            names.push(suspect.name.copy(alloc)?)?;
        }
    }
    Ok(names)
}

/// Marks the suspect with the name as wanted, if it was found in a round before this one.
fn want(suspects: &[Suspect], round: u32, name: &str, wanted: &mut Vec<bool>) {
    for place in 0..suspects.len() {
        let suspect = &suspects[place];
        if suspect.round < round && suspect.name.as_str() == name {
            if let Some(mark) = wanted.get_mut(place) {
                *mark = true;
            }
        }
    }
}

/// Marks the suspects of earlier rounds as wanted that would bring a row meeting the clause.
fn want_providers(
    input: &BlockInput<'_, '_>,
    suspects: &[Suspect],
    round: u32,
    clause: &Clause,
    wanted: &mut Vec<bool>,
)
    requires { AreBySource (unboxed input.now.unstable.sources.now) }
{
    for row in input.unstable.rows {
        if meets(row.binary, clause) && is_current_in(input.unstable.sources, row) {
            want(suspects, round, row.binary.source.as_str(), wanted);
        }
    }
}

/// Marks the suspects as wanted on which this one's block rests: those of earlier rounds whose rows its steps would
/// need.
fn want_for(
    alloc: Global,
    input: &BlockInput<'_, '_>,
    suspects: &[Suspect],
    suspect: &Suspect,
    wanted: &mut Vec<bool>,
) -> Result<(), NoMemory>
    requires sources { AreBySource (unboxed input.now.unstable.sources.now) }
    requires old { lent input.now.rows.now ≡ input.now.testing.now.rows }
{
    let dead = names_before(alloc, suspects, suspect.round)?;
    let live = living(alloc, input.excuses, input.testing, &dead)?;
    let Some(refusal) = block_of(alloc, input, &live, suspect)? else {
        return Ok(());
    };
    for before in 0..refusal.steps.len() {
        if let Some(need) = need_at(&refusal.rows, &refusal.steps, before + 1) {
            want_providers(input, suspects, suspect.round, need.clause, wanted);
        }
    }
    Ok(())
}

/// Marks only the suspect with the name as wanted.
fn want_first(alloc: Global, suspects: &[Suspect], name: &str) -> Result<Vec<bool>, NoMemory> {
    let mut wanted = Vec::with_capacity(alloc, suspects.len())?;
    for suspect in suspects {
        wanted.push(suspect.name.as_str() == name)?;
    }
    Ok(wanted)
}

/// The wanted suspects.
fn those_wanted<'s>(
    alloc: Global,
    suspects: &'s [Suspect],
    wanted: &[bool],
) -> Result<Vec<&'s Suspect>, NoMemory> {
    let mut chosen = Vec::new(alloc);
    for place in 0..suspects.len().min(wanted.len()) {
        if wanted[place] {
            chosen.push(&suspects[place])?;
        }
    }
    Ok(chosen)
}

/// The suspects whose blocks the source's block rests on, itself last, if the suspects are ordered by round.
fn resting<'s>(
    alloc: Global,
    input: &BlockInput<'_, '_>,
    suspects: &'s [Suspect],
    source: &str,
) -> Result<Vec<&'s Suspect>, NoMemory>
    requires sources { AreBySource (unboxed input.now.unstable.sources.now) }
    requires old { lent input.now.rows.now ≡ input.now.testing.now.rows }
{
    let mut wanted = want_first(alloc, suspects, source)?;
    for behind in 0..suspects.len() {
        let place = suspects.len() - 1 - behind;
        if wanted.get(place) == Some(&true) {
            want_for(alloc, input, suspects, &suspects[place], &mut wanted)?;
        }
    }
    those_wanted(alloc, suspects, &wanted)
}

/// The first of the names is the source's.
fn is_first(names: &[Text], source: &str) -> bool
    ensures { result ≡ standing.begins_with names.now source.now }
{
    match names.split_first() {
        Some((first, _others)) => first.as_str() == source,
        None => false,
    }
}

/// The text of the blocks of the source, over this input.
fn text_over(
    alloc: Global,
    input: &BlockInput<'_, '_>,
    suspects: &[Suspect],
    source: &str,
) -> Result<Option<Text>, NoMemory>
    requires sources { AreBySource (unboxed input.now.unstable.sources.now) }
    requires old { lent input.now.rows.now ≡ input.now.testing.now.rows }
    ensures { IfOk result (λ found. IfSome found (words.IsStuckText input.now.archs.now (unboxed input.now.unstable.sources.now) (lent input.now.unstable.rows.now) input.now.excuses.now input.now.testing.now source.now)) }
{
    let chosen = resting(alloc, input, suspects, source)?;
    let Some(told) = told_blocks(alloc, input, &chosen)? else {
        return Ok(None);
    };
    if !is_first(&told.names, source) {
        return Ok(None);
    }
    Ok(Some(told.text))
}

/// The text of the blocks of the source, over testing.
fn text_over_rows(
    alloc: Global,
    basis: &Basis<'_, '_>,
    testing: &Testing,
    suspects: &[Suspect],
    source: &str,
) -> Result<Option<Text>, NoMemory>
    ensures { IfOk result (λ found. IfSome found (words.IsStuckText basis.now.archs.now basis.now.facts.now.sources (lent basis.now.rows.now) basis.now.excuses.now testing.now source.now)) }
{
    let unstable = Unstable {
        sources: basis.facts.sources(),
        rows: basis.rows,
    };
    let old = lend_rows(alloc, testing.rows())?;
    let input = BlockInput {
        archs: basis.archs,
        unstable,
        excuses: basis.excuses,
        testing,
        rows: &old,
    };
    text_over(alloc, &input, suspects, source)
}

/// A proof that no group frees the source, in blocks of lines, over a run behind its hints. The suspects are what a
/// search considers dead, by round. Their blocks are tested, so nothing depends on the search: there is no text if it
/// was wrong, or if the source isn't a suspect. A block costs a few looks at each row of testing and of unstable and at
/// each excuse, and what its clauses touch; if the offender's row is one of testing that stays, also one judgement of
/// its architecture. The only error is running out of memory.
pub fn stuck_text(
    alloc: Global,
    behind: &BehindHints<'_>,
    suspects: &[Suspect],
    source: &str,
) -> Result<Option<Text>, NoMemory>
    ensures { IfOk result (λ found. IfSome found (words.IsStuckText behind.now.archs.now behind.now.facts.now.sources (built_rows behind.now.archs.now behind.now.facts.now.rows) behind.now.excuses.now behind.now.testing.now source.now)) }
{
    let rows = built_rows(alloc, behind.archs, behind.facts.rows())?;
    let basis = Basis {
        archs: behind.archs,
        facts: behind.facts,
        rows: &rows,
        excuses: behind.excuses,
    };
    text_over_rows(alloc, &basis, behind.testing, suspects, source)
}
