//! What the help of each program says.

/// A program over three lists.
#[derive(Clone, Copy)]
pub enum Program {
    /// Prints what to copy into a suite and what to remove from it, so that it has what testing has.
    Plan,

    /// Prints what is due to an office, so that its unstable has what an archive's index has.
    Sync,
}

/// A file that a program reads, and its help.
#[derive(Clone, Copy)]
pub struct File<'a> {
    pub id: &'a str,
    pub help: &'a str,
}

/// The texts of a program's help.
#[derive(Clone, Copy)]
pub struct Page<'a> {
    pub program: Program,
    pub name: &'a str,
    pub about: &'a str,
    pub after: &'a str,
    pub first: File<'a>,
    pub second: File<'a>,
    pub third: File<'a>,
    pub gone: &'a str,
}

const PLAN: Page<'static> = Page {
    program: Program::Plan,
    name: "office-plan",
    about: "Plans what to copy into a suite and what to remove from it, so that it has what testing has.",
    after: "Each file is a list like those of dak's control-suite: it has a line 'NAME VERSION ARCHITECTURE'
for each binary package, and 'NAME VERSION source' for each source. In the plan, the lines
'copy NAME VERSION ARCHITECTURE' precede the lines 'remove NAME VERSION ARCHITECTURE'. Once they
are done, the plan is empty.

Exit status:
0  the plan is printed
2  usage, or help was asked for
3  a list is refused, or lines say why there is no plan: 'lacks NAME VERSION ARCHITECTURE' for each
   item that FROM doesn't have, 'lower NAME VERSION ARCHITECTURE' for each that would go to a lower
   version, or 'leaving N' if more than --gone allows would leave the suite
4  memory, a file or the output failed",
    first: File {
        id: "TESTING",
        help: "The list of what testing has",
    },
    second: File {
        id: "SUITE",
        help: "The list of what the published suite has",
    },
    third: File {
        id: "FROM",
        help: "The list of what can be copied",
    },
    gone: "How many packages and sources may leave the suite for good",
};

const SYNC: Page<'static> = Page {
    program: Program::Sync,
    name: "office-sync",
    about: "Prints what is due to an office, so that its unstable has what an archive's index has.",
    after: "Each file is a list like those of dak's control-suite: it has a line 'NAME VERSION ARCHITECTURE'
for each binary package, and 'NAME VERSION source' for each source. The lines
'tell NAME VERSION ARCHITECTURE' name the builds and uploads that are due, then
'drop NAME VERSION ARCHITECTURE' the packages that are to be dropped up to this version, and
'left NAME VERSION ARCHITECTURE' what the index has and no mail can tell: a version as high was told
or dropped before. After the mail of these lines none of the first two kinds is left.

Exit status:
0  the lines are printed
2  usage, or help was asked for
3  a list is refused, or the line 'leaving N' says that more than --gone allows would leave unstable
4  memory, a file or the output failed",
    first: File {
        id: "UNSTABLE",
        help: "The list of what the office's unstable has",
    },
    second: File {
        id: "INDEX",
        help: "The list of what the archive's index has",
    },
    third: File {
        id: "DROPPED",
        help: "The list of the greatest version that was dropped of each package",
    },
    gone: "How many packages may leave unstable",
};

/// What a program's help says.
pub fn page_of(program: Program) -> Page<'static> {
    match program {
        Program::Plan => PLAN,
        Program::Sync => SYNC,
    }
}
