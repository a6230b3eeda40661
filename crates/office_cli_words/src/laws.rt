//! What stays of the words, whatever commands are added to the program.
ghost use Rattle.office_cli_words.specs.Laws.{OldWordsStay};

/// The command that only compares, replays and serves accepts certain words. Here these ask for the same.
pub fn old_words_stay()
    ensures { OldWordsStay }
{}
