//! The words of the command line.
use pm_gen::number_of;

/// What the words ask.
#[derive(Clone, Copy)]
pub(crate) struct Wanted<'a> {
    /// How many tokens the steps of one line may go over, if there is a limit.
    pub limit: Option<u64>,
    pub task: Task<'a>,
}

/// For what it is asked to answer, and where what is accepted is kept.
#[derive(Clone, Copy)]
pub(crate) enum Task<'a> {
    /// To answer for one document, without a file.
    One,
    /// To begin this file.
    New(&'a str),
    /// To go on behind the lines of this file.
    Open(&'a str),
    /// To answer for many documents, without a file.
    Many,
    /// To begin this file, for many documents.
    ManyNew(&'a str),
    /// To go on behind the lines of this file, for many documents.
    ManyOpen(&'a str),
    /// To write the house behind the lines of the first file into the second.
    ManyPack(&'a str, &'a str),
    /// Nothing that there is.
    Other,
}

/// What the words ask: behind `work N`, whose number is below 2^64, they are those without it.
pub(crate) fn wanted_of(words: &[String]) -> Wanted<'_> {
    if words.len() < 2 || words[0].as_str() != "work" {
        return Wanted {
            limit: None,
            task: task_of(words),
        };
    }
    match number_of(words[1].as_str()) {
        Some(limit) => Wanted {
            limit: Some(limit),
            task: task_below(&words[2..]),
        },
        None => Wanted {
            limit: None,
            task: Task::Other,
        },
    }
}

/// What the words ask behind a limit: packing has none.
fn task_below(words: &[String]) -> Task<'_> {
    match task_of(words) {
        Task::ManyPack(..) => Task::Other,
        task => task,
    }
}

/// What the words ask that say nothing of a limit.
fn task_of(words: &[String]) -> Task<'_> {
    if words.is_empty() {
        return Task::One;
    }
    if words[0].as_str() != "many" {
        return match file_of(words) {
            Some((true, path)) => Task::New(path),
            Some((false, path)) => Task::Open(path),
            None => Task::Other,
        };
    }
    if words.len() == 1 {
        return Task::Many;
    }
    if words.len() == 4 && words[1].as_str() == "pack" {
        return Task::ManyPack(words[2].as_str(), words[3].as_str());
    }
    match file_of(&words[1..]) {
        Some((true, path)) => Task::ManyNew(path),
        Some((false, path)) => Task::ManyOpen(path),
        None => Task::Other,
    }
}

/// The file that two words name, and whether it is a new one.
fn file_of(words: &[String]) -> Option<(bool, &str)> {
    if words.len() != 2 {
        return None;
    }
    match words[0].as_str() {
        "new" => Some((true, words[1].as_str())),
        "open" => Some((false, words[1].as_str())),
        _ => None,
    }
}
