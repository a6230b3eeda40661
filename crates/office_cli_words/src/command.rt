//! The program's command as clap sees it, with its help texts.

ghost use Rattle.std.specs.Prelude.{◌≡◌, IfOk, codes, false, true};
ghost use Rattle.clap.specs.Words.{App, Rule, app_of, new_app, new_rule, rule_of, with_rule, with_subcommand};
ghost use Rattle.office_cli_words.specs.Program as program;
ghost use Rattle.office_cli_words.specs.steps.ProgramSteps as steps;

use clap::builder::ValueParser;
use clap::{Arg, ArgAction, Command};
use std::alloc::{AllocError, Global};

const ABOUT: &str = "Decides which Debian source packages migrate from unstable to testing.";

const AFTER: &str =
    "office --version prints the version. Each command has its own help: office compare --help,
office replay --help, office serve --help, office waiting --help, office report --help,
office runs --help, office mail --help, office export --help, office check --help,
office why --help, office try --help, office lint --help, office order --help,
office hints --help, office propose --help, office breaks --help.

Exit status:
0  done, or the comparison is true
1  the comparison is false, an ordered run waits for mail, the run of a report isn't finished, the
   store isn't what its mail gives, unstable has no such source, the hints change nothing, a message
   is refused, or no hint moves a group or frees a source
2  usage, or help was asked for
3  a version, the setup, the bag or a hint was refused, or no day is known for the next run
4  memory, a file, the store, the socket or the output failed";

const COMPARE: &str =
    "Compares two versions as Debian Policy 5.6.12 orders them: status 0 true, 1 false";

const AFTER_COMPARE: &str = "Example: office compare 1.0~rc1 lt 1.0

Nothing is printed: the answer is the exit status. A version that begins with a hyphen goes
after --, as in office compare -- -1 lt 1.";

const OPERATOR: &str =
    "lt, le, eq, ge or gt: whether V1 is less than V2, at most V2, the same version, at least V2, or greater than V2";

const REPLAY: &str =
    "Delivers the bag on standard input, finishes the ready runs, and prints the result";

const AFTER_REPLAY: &str = "Example: office replay --conf examples/setup.conf < examples/first.bag

In a bag each message follows a line 'mail N', N being its length in bytes. Without --db the mail
is kept in memory and is gone at the end.";

const SERVE: &str = "Accepts mail and serves reports over HTTP on 127.0.0.1";

const AFTER_SERVE: &str = "Example: office serve --conf examples/setup.conf --port 8080
         curl --data-binary @MESSAGE http://127.0.0.1:8080/mail
         curl http://127.0.0.1:8080/status

Prints 'listening N' once it accepts connections, and serves one after the other. Without --db the
mail is kept in memory and is gone at the end.";

const HOST: &str =
    "A name of this service, besides 127.0.0.1, [::1] and localhost: other hosts are refused";

const WAITING: &str = "Prints what the first run that isn't ready waits for: its order, or mail";

const AFTER_WAITING: &str = "Example: office waiting --conf examples/setup.conf < examples/first.bag

Without --db it first delivers the messages of a bag on standard input to an office in memory.
With --db it reads the store in the file, and not standard input. Status 0: the run isn't ordered
yet; 1: it is ordered, and waits for mail.";

const REPORT: &str =
    "Prints a report of an earlier run, testing or unstable, from the store in a file";

const AFTER_REPORT: &str =
    "Examples: office report 3 excuses --conf examples/setup.conf --db store.db
          office report 3 update --conf examples/setup.conf --db store.db
          office report testing --conf examples/setup.conf --db store.db
          office report unstable --conf examples/setup.conf --db store.db

Unstable is what the kept mail gives up to each sender's first gap. Testing is what the last run
left. No run is finished. If that run isn't finished, nothing is printed, and the status is 1.";

const RUN: &str = "The number of a finished run, from 1 on, or testing, or unstable";

const TOLD: &str = "excuses or update, after the number of a run";

const RUNS: &str = "Prints a line for each finished run, from the store in a file";

const AFTER_RUNS: &str = "Example: office runs --conf examples/setup.conf --db store.db

Each line is 'run K DATE excuses E candidates C accept A easy G remove M wait W'. E to W are counts
of lines in the two reports of run K.";

const MAIL: &str = "Prints how much mail of each sender the store in a file keeps";

const AFTER_MAIL: &str = "Examples: office mail --conf examples/setup.conf --db store.db
          office mail --conf examples/setup.conf --db store.db --list

Each sender has a line 'mail SENDER COUNT kept, 1 to U, greatest G'. U is the last number up to
which none is missing, and G is the greatest number.";

const LIST: &str =
    "Lists each message instead, by sender and number: its kind, and what it is about";

const EXPORT: &str = "Writes the mail that the store in a file keeps as a bag";

const AFTER_EXPORT: &str =
    "Example: office export --conf examples/setup.conf --db store.db > store.bag

The messages are ordered by sender and number. An office that replays the bag has the same runs.";

const CHECK: &str =
    "Repeats each run from the mail in the store, and reports whether the store is the same";

const AFTER_CHECK: &str = "Example: office check --conf examples/setup.conf --db store.db

Prints one line: 'whole F runs', or the first difference. That is 'mail SENDER NUMBER' for a kept
text that is no message of that sender and number; 'run K mail' if not all that the run covers is
kept; 'run K excuses' or 'run K update' for a report that differs; 'testing'; or 'facts'. Nothing
is changed. Status 1: there is a difference.";

const WHY: &str = "Explains why a source is where the last run, or an earlier one, left it";

const AFTER_WHY: &str = "Examples: office why libgreet --conf examples/setup.conf --db store.db
          office why libgreet greeter --run 2 --conf examples/setup.conf < examples/archive.bag

Prints a line 'why RUN SOURCE' for each source. Then come its excuse, or that it is in testing at
unstable's version, or unknown; where each reason comes from; and each line of the run's update that
names it. Such a line says that it moves, that it waits and for what, or that another source waits
for a package of its name. If the source waits, further lines show why it can't move alone.

With --hint N it prints a line 'why RUN SENDER N', then each line of the run's update on that hint,
or the hint's state. If the run refuses the hint, further lines show why.

An earlier run is repeated in memory from the same mail. Status 1: the run isn't finished, unstable
doesn't have one of the sources, or the run doesn't cover one of the hints.";

const SOURCE: &str = "The name of a source";

const HINTED: &str =
    "The words are numbers of hints instead of sources: prints what the run made of each hint";

const RUN_TOLD: &str = "The number of a finished run; by default the last one";

const TRY: &str = "Prints what the next run would decide with hints that aren't mailed yet";

const AFTER_TRY: &str =
    "Example: office try 'unblock libgreet/2.0-1' --conf examples/setup.conf --db store.db

Prints a line for each hint with the number that it would have. Then come the lines of excuses,
update and testing that the next run would no longer have (-) and would have in addition (+). If
the run refuses a hint, further lines show why. Nothing is kept. Status 1: nothing changes; 3: a
hint can't be mailed.";

const HINT: &str = "A hint, as in the Hint field of a message";

const DAY: &str = "The day of the run, as 2025-03-20; by default that of the last run";

const ALL: &str =
    "Covers all mail that is kept without a gap, instead of what the last run covered";

const LINT: &str =
    "Reports which messages of a bag on standard input are refused, and keeps nothing";

const AFTER_LINT: &str = "Example: office lint --conf examples/setup.conf < examples/first.bag

Replays the bag in an office in memory, and reports each refusal on standard error, with the place
of its message. Nothing else is printed. Status 0: all messages would be held; 1: one is refused.";

const ORDER: &str =
    "Prints the next order over all mail that the store in a file keeps without a gap";

const AFTER_ORDER: &str =
    "Example: office order --day 2025-03-20 --conf examples/setup.conf --db store.db

Prints a message of the sender of orders. It covers all mail of each sender up to the first gap,
and doesn't name a sender without kept mail. It can be mailed as it is.";

const DATED: &str = "The day of the order, as 2025-03-20";

const HINTS: &str =
    "Prints the hints in force, from the mail that the store in a file keeps without a gap";

const AFTER_HINTS: &str = "Example: office hints --conf examples/setup.conf --db store.db

The first line is 'hints F', F being the number of finished runs. Then each item of each hint has a
line: SENDER N, 'covered' or 'new', the hint, and the item's state. The state is 'in force'; 'moved'
if testing has that version; 'no source' if unstable has none of that name; or unstable's version.";

const PROPOSE: &str =
    "Prints hints that move groups of sources in the next run, or hints that free some sources";

const AFTER_PROPOSE: &str = "Examples: office propose --conf examples/setup.conf --db store.db
          office propose libgreet --day 2025-03-20 --all --conf examples/setup.conf --db store.db

Prints easy hints, one a line, in the order in which to number them. A run that covers them moves
each group. With SOURCE, it prints the hints that free that source, and reports on standard error
each source that has none. Nothing is kept. Status 1: there is no hint, or one of the sources isn't
moved; 3: no run is finished, and no day is named.";

const BREAKS: &str = "Prints which packages of testing would break if sources moved or went";

const AFTER_BREAKS: &str =
    "Examples: office breaks libgreet --conf examples/setup.conf --db store.db
          office breaks 'remove libgreet/1.2-1' --run 1 --conf examples/setup.conf < examples/archive.bag

Prints a line 'breaks RUN CHANGE' for each CHANGE. Then come for each architecture a line
'broken ARCH COUNT' and the first hundred packages that would no longer be installable, each with
the package of its name in unstable. If sources come in, further lines show why the first package
breaks. Nothing is kept. Status 1: the run isn't finished, or a line 'unknown' names what can't
change; 3: a CHANGE is neither the name of a source nor a hint 'easy' or 'remove'.";

const CHANGE: &str =
    "The name of a source that moves, or a hint: easy NAME/VERSION .. or remove NAME/VERSION ..";

const FREED: &str = "The name of a source that should move";

const SETUP: &str =
    "The file of the setup: the architectures, and the senders of mail with their roles";

const STORE: &str =
    "The file that keeps mail, reports and testing; it is created if it doesn't exist";

const LOOKED_AT: &str = "The file of an existing store";

/// `--conf SETUP`, required.
fn conf_option<'a>(alloc: Global) -> Arg<'a>
    ensures rule { rule_of result ≡ program.conf }
    ensures local { result.global ≡ false }
{
    Arg::new(alloc, "conf")
        .long("conf")
        .value_name("SETUP")
        .help(SETUP)
        .required(true)
}

/// `--db FILE`.
fn db_option<'a>(alloc: Global, help: &'a str) -> Arg<'a>
    ensures rule { rule_of result ≡ program.db }
    ensures local { result.global ≡ false }
{
    Arg::new(alloc, "db")
        .long("db")
        .value_name("FILE")
        .help(help)
}

/// `--db FILE`, required.
fn stored_option<'a>(alloc: Global) -> Arg<'a>
    ensures rule { rule_of result ≡ program.stored }
    ensures local { result.global ≡ false }
{
    db_option(alloc, LOOKED_AT).required(true)
}

/// `--list`.
fn list_option<'a>(alloc: Global) -> Arg<'a>
    ensures rule { rule_of result ≡ program.flag (codes "list") }
    ensures local { result.global ≡ false }
{
    Arg::new(alloc, "list")
        .long("list")
        .help(LIST)
        .action(ArgAction::SetTrue)
}

/// `--port PORT`, from 1 to 65,535.
fn port_option<'a>(alloc: Global) -> Arg<'a>
    ensures rule { rule_of result ≡ program.port }
    ensures local { result.global ≡ false }
{
    Arg::new(alloc, "port")
        .long("port")
        .value_name("PORT")
        .help("The port of 127.0.0.1, from 1 to 65535")
        .required(true)
        .value_parser(ValueParser::unsigned(1, 65_535))
}

/// `--connections COUNT`, from 0 to 1,000,000.
fn connections_option<'a>(alloc: Global) -> Arg<'a>
    ensures rule { rule_of result ≡ program.connections }
    ensures local { result.global ≡ false }
{
    Arg::new(alloc, "connections")
        .long("connections")
        .value_name("COUNT")
        .help("How many connections are served before the service ends, from 0 to 1000000")
        .value_parser(ValueParser::unsigned(0, 1_000_000))
        .default_value("1000000")
}

/// `--host NAME`, which may be given several times.
fn host_option<'a>(alloc: Global) -> Arg<'a>
    ensures rule { rule_of result ≡ program.several (program.option (codes "host")) }
    ensures local { result.global ≡ false }
{
    Arg::new(alloc, "host")
        .long("host")
        .value_name("NAME")
        .help(HOST)
        .action(ArgAction::Append)
}

/// A value that is needed, by its place.
fn place<'a>(alloc: Global, id: &'a str, help: &'a str) -> Arg<'a>
    ensures rule { rule_of result ≡ program.place id.entry.now }
    ensures local { result.global ≡ false }
{
    Arg::new(alloc, id).help(help).required(true)
}

/// A required value, by its place; more may follow it.
fn places<'a>(alloc: Global, id: &'a str, help: &'a str) -> Arg<'a>
    ensures rule { rule_of result ≡ program.several (program.place id.entry.now) }
    ensures local { result.global ≡ false }
{
    place(alloc, id, help).action(ArgAction::Append)
}

/// `--run RUN`, from 1 to 999,999,999.
fn run_option<'a>(alloc: Global) -> Arg<'a>
    ensures rule { rule_of result ≡ program.run }
    ensures local { result.global ≡ false }
{
    Arg::new(alloc, "run")
        .long("run")
        .value_name("RUN")
        .help(RUN_TOLD)
        .value_parser(ValueParser::unsigned(1, 999_999_999))
}

/// `--day DAY`.
fn day_option<'a>(alloc: Global) -> Arg<'a>
    ensures rule { rule_of result ≡ program.option (codes "day") }
    ensures local { result.global ≡ false }
{
    Arg::new(alloc, "day")
        .long("day")
        .value_name("DAY")
        .help(DAY)
}

/// `--day DAY`, required.
fn dated_option<'a>(alloc: Global) -> Arg<'a>
    ensures rule { rule_of result ≡ program.needed (codes "day") }
    ensures local { result.global ≡ false }
{
    Arg::new(alloc, "day")
        .long("day")
        .value_name("DAY")
        .help(DATED)
        .required(true)
}

/// Optional sources, by their place.
fn freed_place<'a>(alloc: Global) -> Arg<'a>
    ensures rule { rule_of result ≡ program.several (new_rule (codes "SOURCE")) }
    ensures local { result.global ≡ false }
{
    Arg::new(alloc, "SOURCE")
        .help(FREED)
        .action(ArgAction::Append)
}

/// `--hint`.
fn hint_option<'a>(alloc: Global) -> Arg<'a>
    ensures rule { rule_of result ≡ program.flag (codes "hint") }
    ensures local { result.global ≡ false }
{
    Arg::new(alloc, "hint")
        .long("hint")
        .help(HINTED)
        .action(ArgAction::SetTrue)
}

/// `--all`.
fn all_option<'a>(alloc: Global) -> Arg<'a>
    ensures rule { rule_of result ≡ program.flag (codes "all") }
    ensures local { result.global ≡ false }
{
    Arg::new(alloc, "all")
        .long("all")
        .help(ALL)
        .action(ArgAction::SetTrue)
}

/// The optional report of a run, by its place.
fn told_place<'a>(alloc: Global) -> Arg<'a>
    ensures rule { rule_of result ≡ new_rule (codes "REPORT") }
    ensures local { result.global ≡ false }
{
    Arg::new(alloc, "REPORT").help(TOLD)
}

/// A command with one more argument. If the command couldn't be made, that is passed on.
fn with_arg<'a>(
    command: Result<Command<'a>, AllocError>,
    arg: Arg<'a>,
) -> Result<Command<'a>, AllocError>
    requires { arg.global ≡ false }
    ensures { (app : App) → (added : Rule) → rule_of arg.entry ≡ added → IfOk command.entry (λ c. app_of c ≡ app) → IfOk result (λ c. app_of c ≡ with_rule app added) }
{
    match command {
        Ok(command) => command.arg(arg),
        Err(fault) => {
            drop(arg);
            Err(fault)
        }
    }
}

/// A command with one more subcommand. If the subcommand couldn't be made, that is passed on.
#[tactic(auto, using(crate::proofs::Plain::adds_part))]
fn with_part<'a>(
    whole: Command<'a>,
    part: Result<Command<'a>, AllocError>,
) -> Result<Command<'a>, AllocError>
    ensures { (added : App) → added.top.is_plain ≡ true → IfOk part.entry (λ c. app_of c ≡ added) → IfOk result (λ c. app_of c ≡ with_subcommand (app_of whole.entry) added.top) }
{
    match part {
        Ok(part) => whole.subcommand(part),
        Err(fault) => {
            drop(whole);
            Err(fault)
        }
    }
}

/// A command with one more subcommand. If the command itself couldn't be made, that is passed on.
fn with_command<'a>(
    whole: Result<Command<'a>, AllocError>,
    part: Result<Command<'a>, AllocError>,
) -> Result<Command<'a>, AllocError>
    ensures { (app : App) → (added : App) → added.top.is_plain ≡ true → IfOk whole.entry (λ c. app_of c ≡ app) → IfOk part.entry (λ c. app_of c ≡ added) → IfOk result (λ c. app_of c ≡ with_subcommand app added.top) }
{
    match whole {
        Ok(whole) => with_part(whole, part),
        Err(fault) => {
            drop(part);
            Err(fault)
        }
    }
}

/// A command without arguments.
fn named<'a>(
    alloc: Global,
    name: &'a str,
    about: &'a str,
    after: &'a str,
) -> Result<Command<'a>, AllocError>
    ensures { IfOk result (λ c. app_of c ≡ new_app name.entry.now) }
{
    Ok(Command::new(alloc, name).about(about).after_help(after))
}

/// `compare V1 OP V2`.
fn compare_command<'a>(alloc: Global) -> Result<Command<'a>, AllocError>
    ensures { IfOk result (λ c. app_of c ≡ program.compare) }
{
    let bare = named(alloc, "compare", COMPARE, AFTER_COMPARE);
    let one = with_arg(bare, place(alloc, "V1", "A version"));
    let two = with_arg(one, place(alloc, "OP", OPERATOR));
    with_arg(two, place(alloc, "V2", "Another version"))
}

/// `replay --conf SETUP [--db FILE]`.
fn replay_command<'a>(alloc: Global) -> Result<Command<'a>, AllocError>
    ensures { IfOk result (λ c. app_of c ≡ program.replay) }
{
    let bare = named(alloc, "replay", REPLAY, AFTER_REPLAY);
    let one = with_arg(bare, conf_option(alloc));
    with_arg(one, db_option(alloc, STORE))
}

/// `serve --conf SETUP --port PORT [--db FILE] [--connections COUNT] [--host NAME]..`.
fn serve_command<'a>(alloc: Global) -> Result<Command<'a>, AllocError>
    ensures { IfOk result (λ c. app_of c ≡ program.serve) }
{
    let bare = named(alloc, "serve", SERVE, AFTER_SERVE);
    let one = with_arg(bare, conf_option(alloc));
    let two = with_arg(one, port_option(alloc));
    let three = with_arg(two, db_option(alloc, STORE));
    let four = with_arg(three, connections_option(alloc));
    with_arg(four, host_option(alloc))
}

/// `waiting --conf SETUP [--db FILE]`.
fn waiting_command<'a>(alloc: Global) -> Result<Command<'a>, AllocError>
    ensures { IfOk result (λ c. app_of c ≡ steps.waiting) }
{
    let bare = named(alloc, "waiting", WAITING, AFTER_WAITING);
    let one = with_arg(bare, conf_option(alloc));
    with_arg(one, db_option(alloc, LOOKED_AT))
}

/// `report RUN [REPORT] --conf SETUP --db FILE`.
fn report_command<'a>(alloc: Global) -> Result<Command<'a>, AllocError>
    ensures { IfOk result (λ c. app_of c ≡ steps.report) }
{
    let bare = named(alloc, "report", REPORT, AFTER_REPORT);
    let one = with_arg(bare, place(alloc, "RUN", RUN));
    let two = with_arg(one, told_place(alloc));
    let three = with_arg(two, conf_option(alloc));
    with_arg(three, stored_option(alloc))
}

/// `NAME --conf SETUP --db FILE`.
fn looking_command<'a>(
    alloc: Global,
    name: &'a str,
    about: &'a str,
    after: &'a str,
) -> Result<Command<'a>, AllocError>
    ensures { IfOk result (λ c. app_of c ≡ steps.looking name.entry.now) }
{
    let bare = named(alloc, name, about, after);
    let one = with_arg(bare, conf_option(alloc));
    with_arg(one, stored_option(alloc))
}

/// `mail --conf SETUP --db FILE [--list]`.
fn mail_command<'a>(alloc: Global) -> Result<Command<'a>, AllocError>
    ensures { IfOk result (λ c. app_of c ≡ steps.mail) }
{
    let looking = looking_command(alloc, "mail", MAIL, AFTER_MAIL);
    with_arg(looking, list_option(alloc))
}

/// `why SOURCE.. --conf SETUP [--db FILE] [--run RUN] [--hint]`.
fn why_command<'a>(alloc: Global) -> Result<Command<'a>, AllocError>
    ensures { IfOk result (λ c. app_of c ≡ steps.why) }
{
    let bare = named(alloc, "why", WHY, AFTER_WHY);
    let one = with_arg(bare, places(alloc, "SOURCE", SOURCE));
    let two = with_arg(one, conf_option(alloc));
    let three = with_arg(two, db_option(alloc, LOOKED_AT));
    let four = with_arg(three, run_option(alloc));
    with_arg(four, hint_option(alloc))
}

/// `try HINT.. --conf SETUP [--db FILE] [--day DAY] [--all]`.
fn try_command<'a>(alloc: Global) -> Result<Command<'a>, AllocError>
    ensures { IfOk result (λ c. app_of c ≡ steps.tries) }
{
    let bare = named(alloc, "try", TRY, AFTER_TRY);
    let one = with_arg(bare, places(alloc, "HINT", HINT));
    let two = with_arg(one, conf_option(alloc));
    let three = with_arg(two, db_option(alloc, LOOKED_AT));
    let four = with_arg(three, day_option(alloc));
    with_arg(four, all_option(alloc))
}

/// `lint --conf SETUP`.
fn lint_command<'a>(alloc: Global) -> Result<Command<'a>, AllocError>
    ensures { IfOk result (λ c. app_of c ≡ steps.lint) }
{
    let bare = named(alloc, "lint", LINT, AFTER_LINT);
    with_arg(bare, conf_option(alloc))
}

/// `order --day DAY --conf SETUP --db FILE`.
fn order_command<'a>(alloc: Global) -> Result<Command<'a>, AllocError>
    ensures { IfOk result (λ c. app_of c ≡ steps.order) }
{
    let bare = named(alloc, "order", ORDER, AFTER_ORDER);
    let one = with_arg(bare, dated_option(alloc));
    let two = with_arg(one, conf_option(alloc));
    with_arg(two, stored_option(alloc))
}

/// `propose [SOURCE..] --conf SETUP [--db FILE] [--day DAY] [--all]`.
fn propose_command<'a>(alloc: Global) -> Result<Command<'a>, AllocError>
    ensures { IfOk result (λ c. app_of c ≡ steps.propose) }
{
    let bare = named(alloc, "propose", PROPOSE, AFTER_PROPOSE);
    let one = with_arg(bare, freed_place(alloc));
    let two = with_arg(one, conf_option(alloc));
    let three = with_arg(two, db_option(alloc, LOOKED_AT));
    let four = with_arg(three, day_option(alloc));
    with_arg(four, all_option(alloc))
}

/// `breaks CHANGE.. --conf SETUP [--db FILE] [--run RUN]`.
fn breaks_command<'a>(alloc: Global) -> Result<Command<'a>, AllocError>
    ensures { IfOk result (λ c. app_of c ≡ steps.breaks) }
{
    let bare = named(alloc, "breaks", BREAKS, AFTER_BREAKS);
    let one = with_arg(bare, places(alloc, "CHANGE", CHANGE));
    let two = with_arg(one, conf_option(alloc));
    let three = with_arg(two, db_option(alloc, LOOKED_AT));
    with_arg(three, run_option(alloc))
}

/// The command without its subcommands.
fn bare_command<'a>(alloc: Global) -> Command<'a>
    ensures { app_of result ≡ program.bare }
{
    Command::new(alloc, "office")
        .about(ABOUT)
        .after_help(AFTER)
        .subcommand_required(true)
        .arg_required_else_help(true)
        .disable_help_subcommand(true)
}

/// The command that only compares, replays and serves.
fn command_of_three<'a>(alloc: Global) -> Result<Command<'a>, AllocError>
    ensures { IfOk result (λ c. app_of c ≡ program.of_three) }
{
    let one = with_command(Ok(bare_command(alloc)), compare_command(alloc));
    let two = with_command(one, replay_command(alloc));
    with_command(two, serve_command(alloc))
}

/// The command that also prints what a run waits for and each report.
fn command_of_five<'a>(alloc: Global) -> Result<Command<'a>, AllocError>
    ensures { IfOk result (λ c. app_of c ≡ steps.of_five) }
{
    let four = with_command(command_of_three(alloc), waiting_command(alloc));
    with_command(four, report_command(alloc))
}

/// The command that also prints runs and mail, exports mail, and checks a store.
fn command_of_nine<'a>(alloc: Global) -> Result<Command<'a>, AllocError>
    ensures { IfOk result (λ c. app_of c ≡ steps.of_nine) }
{
    let runs = looking_command(alloc, "runs", RUNS, AFTER_RUNS);
    let six = with_command(command_of_five(alloc), runs);
    let seven = with_command(six, mail_command(alloc));
    let export = looking_command(alloc, "export", EXPORT, AFTER_EXPORT);
    let eight = with_command(seven, export);
    let check = looking_command(alloc, "check", CHECK, AFTER_CHECK);
    with_command(eight, check)
}

/// The command that also prints what a run said of sources, and tries hints.
fn command_of_eleven<'a>(alloc: Global) -> Result<Command<'a>, AllocError>
    ensures { IfOk result (λ c. app_of c ≡ steps.of_eleven) }
{
    let ten = with_command(command_of_nine(alloc), why_command(alloc));
    with_command(ten, try_command(alloc))
}

/// The command that also tells which messages of a bag are refused, the next order and hints.
fn command_of_fifteen<'a>(alloc: Global) -> Result<Command<'a>, AllocError>
    ensures { IfOk result (λ c. app_of c ≡ steps.of_fifteen) }
{
    let twelve = with_command(command_of_eleven(alloc), lint_command(alloc));
    let thirteen = with_command(twelve, order_command(alloc));
    let hints = looking_command(alloc, "hints", HINTS, AFTER_HINTS);
    let fourteen = with_command(thirteen, hints);
    with_command(fourteen, propose_command(alloc))
}

/// The program's command.
pub(crate) fn office_command<'a>(alloc: Global) -> Result<Command<'a>, AllocError>
    ensures { IfOk result (λ c. app_of c ≡ program.office) }
{
    with_command(command_of_fifteen(alloc), breaks_command(alloc))
}
