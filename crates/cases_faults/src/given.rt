//! The mail of the parts, and its results.

/// The setup of each office.
pub const SETUP: &str = "Architectures: amd64 arm64

Sender: ftp
Role: upload

Sender: bd
Role: build

Sender: bts
Role: bugs

Sender: rt
Role: release

Sender: clock
Role: runs
";

/// A message: its sender's place, its number, its text, and the line that answers it.
#[derive(Clone, Copy)]
pub struct Letter {
    pub sender: u32,
    pub number: u32,
    pub text: &'static str,
    pub reply: &'static str,
}

/// The mail of two runs, in its order: foo moves in the first, a newer version of it in the second.
pub static LETTERS: [Letter; 7] = [
    Letter {
        sender: 0,
        number: 1,
        text: "From: ftp\nNumber: 1\nKind: upload\nSource: foo\nVersion: 1.0-1\nUrgency: medium\nDay: 2025-03-01\n",
        reply: "held ftp 1\n",
    },
    Letter {
        sender: 1,
        number: 1,
        text: "From: bd\nNumber: 1\nKind: build\n\nPackage: foo\nVersion: 1.0-1\nArchitecture: amd64\n",
        reply: "held bd 1\n",
    },
    Letter {
        sender: 4,
        number: 1,
        text: "From: clock\nNumber: 1\nKind: run\nDay: 2025-03-06\nCovers: ftp 1, bd 1\n",
        reply: "held clock 1\n",
    },
    Letter {
        sender: 0,
        number: 2,
        text: "From: ftp\nNumber: 2\nKind: upload\nSource: foo\nVersion: 1.1-1\nUrgency: high\nDay: 2025-03-07\n",
        reply: "held ftp 2\n",
    },
    Letter {
        sender: 0,
        number: 3,
        text: "From: ftp\nNumber: 3\nKind: upload\nSource: foo\nVersion: 1.2-1\nUrgency: low\nDay: 2025-03-08\n",
        reply: "held ftp 3\n",
    },
    Letter {
        sender: 1,
        number: 2,
        text: "From: bd\nNumber: 2\nKind: build\n\nPackage: foo\nVersion: 1.2-1\nArchitecture: amd64\n",
        reply: "held bd 2\n",
    },
    Letter {
        sender: 4,
        number: 2,
        text: "From: clock\nNumber: 2\nKind: run\nDay: 2025-03-10\nCovers: ftp 3, bd 2\n",
        reply: "held clock 2\n",
    },
];

/// Testing before any run, and after each.
pub const TESTING: [&str; 3] = [
    "testing 0\n",
    "testing 1\nsource foo 1.0-1\nbinary amd64 foo 1.0-1 foo\n",
    "testing 2\nsource foo 1.2-1\nbinary amd64 foo 1.2-1 foo\n",
];

/// The excuses of the runs.
pub const EXCUSES: [&str; 2] = [
    "excuses 1 2025-03-06\nfoo - 1.0-1\n age 5 of 5\n candidate\n",
    "excuses 2 2025-03-10\nfoo 1.0-1 1.2-1\n age 2 of 2\n candidate\n",
];

/// The updates of the runs.
pub const UPDATES: [&str; 2] = [
    "update 1 2025-03-06\naccept foo 1.0-1\n",
    "update 2 2025-03-10\naccept foo 1.2-1\n",
];

/// What a replay of the first run's mail prints.
pub const OUTPUT: &str =
    "held ftp 1\nheld bd 1\nheld clock 1\nready 1 finished 1\nexcuses 1 2025-03-06\nfoo - 1.0-1\n age 5 of 5\n candidate\nupdate 1 2025-03-06\naccept foo 1.0-1\ntesting 1\nsource foo 1.0-1\nbinary amd64 foo 1.0-1 foo\n";

/// What it prints if a read fails after that many of its messages came whole.
pub const BROKEN: [&str; 4] = [
    "bag refused ReadFault\nready 0 finished 0\ntesting 0\n",
    "held ftp 1\nbag refused ReadFault\nready 0 finished 0\ntesting 0\n",
    "held ftp 1\nheld bd 1\nbag refused ReadFault\nready 0 finished 0\ntesting 0\n",
    "held ftp 1\nheld bd 1\nheld clock 1\nbag refused ReadFault\nready 1 finished 1\nexcuses 1 2025-03-06\nfoo - 1.0-1\n age 5 of 5\n candidate\nupdate 1 2025-03-06\naccept foo 1.0-1\ntesting 1\nsource foo 1.0-1\nbinary amd64 foo 1.0-1 foo\n",
];

/// How many bytes of its bag end after each message.
pub static ENDS: [usize; 3] = [100, 188, 264];

/// The mail of a group that a hint asks for and that can't move: one of its sources moves alone, the other waits.
pub static GROUP: [Letter; 6] = [
    Letter {
        sender: 0,
        number: 1,
        text: "From: ftp\nNumber: 1\nKind: upload\nSource: aa\nVersion: 1\nUrgency: critical\nDay: 2025-03-06\n",
        reply: "held ftp 1\n",
    },
    Letter {
        sender: 0,
        number: 2,
        text: "From: ftp\nNumber: 2\nKind: upload\nSource: bb\nVersion: 1\nUrgency: critical\nDay: 2025-03-06\n",
        reply: "held ftp 2\n",
    },
    Letter {
        sender: 1,
        number: 1,
        text: "From: bd\nNumber: 1\nKind: build\n\nPackage: aa\nVersion: 1\nArchitecture: amd64\nDepends: nowhere\n",
        reply: "held bd 1\n",
    },
    Letter {
        sender: 1,
        number: 2,
        text: "From: bd\nNumber: 2\nKind: build\n\nPackage: bb\nVersion: 1\nArchitecture: amd64\n",
        reply: "held bd 2\n",
    },
    Letter {
        sender: 3,
        number: 1,
        text: "From: rt\nNumber: 1\nKind: hint\nHint: easy aa/1 bb/1\n",
        reply: "held rt 1\n",
    },
    Letter {
        sender: 4,
        number: 1,
        text: "From: clock\nNumber: 1\nKind: run\nDay: 2025-03-06\nCovers: ftp 2, bd 2, rt 1\n",
        reply: "held clock 1\n",
    },
];

/// The update of the group's run.
pub const GROUP_UPDATE: &str =
    "update 1 2025-03-06\neasy 1 refuse uninstallable amd64 aa\naccept bb 1\nwait aa 1 uninstallable amd64 aa\n";

/// Testing after it.
pub const GROUP_TESTING: &str = "testing 1\nsource bb 1\nbinary amd64 bb 1 bb\n";

/// The reply to the longest message that may be posted.
pub const REPLY: &str =
    "HTTP/1.1 200 OK\r\nContent-Type: text/plain; charset=utf-8\r\nContent-Length: 11\r\nConnection: close\r\n\r\nheld ftp 1\n";

/// What precedes it if the client waits for it.
pub const CONTINUE: &str = "HTTP/1.1 100 Continue\r\n\r\n";

/// The header by which a client says that it waits.
pub const EXPECT: &str = "Expect: 100-continue\r\n";

/// The first mail of the two runs.
pub fn first_letters(count: usize) -> &'static [Letter] {
    LETTERS.get(..count).unwrap_or(&LETTERS)
}

/// The mail of that many letters: the first run's has three, the group's six, that of both runs seven.
pub fn letters_of(count: usize) -> &'static [Letter] {
    match count {
        6 => &GROUP,
        _ => first_letters(count),
    }
}
