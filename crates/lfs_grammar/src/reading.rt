//! The reading of a command line.
ghost use Rattle.std.specs.Prelude.{◌≡◌, IfOk, codes};
ghost use Rattle.std.specs.Bool.{OnTrue};
ghost use Rattle.lfs_grammar.specs.Asking.{HasWord, IsStrict};

use crate::grammar::{
    CHECKPOINT, FILE, FIRST_FORMAT, FOLDER, FORCE, FORMAT, FROM, HUMAN, IMAGE, JSON, LEFT, LONG,
    NEW, NULL, OLD, OLDER, PARENTS, PASSES, PATH, RECURSIVE, RESERVE, SCAN, SECOND_FORMAT,
    SEGMENTS, SIZE, STOP, STRICT, TARGET, THIRD_FORMAT, TO, UNIT, VERBOSE, Verb, WAIT, program,
    verb_of,
};
use crate::request::{
    Action, Change, ExtentWord, LeftWord, Names, Query, Request, ShapeWords, Source,
};
use clap::error::ErrorKind;
use clap::{ArgMatches, Error};
use std::alloc::{AllocError, Global};

/// Why a command line asks for nothing.
#[derive(Debug, Drop)]
pub enum RequestFault {
    /// It is bad, as this text says.
    Line(String),
    Memory(AllocError),
}

impl From<AllocError> for RequestFault {
    fn from(error: AllocError) -> RequestFault {
        RequestFault::Memory(error)
    }
}

fn left_of(word: &str) -> Option<LeftWord> {
    match word {
        "old" => Some(LeftWord::Old),
        "new" => Some(LeftWord::New),
        "bad" => Some(LeftWord::Bad),
        _ => None,
    }
}

// The version of the layout that a word names.
fn version_of(word: &str) -> Option<u32> {
    match word {
        FIRST_FORMAT => Some(1),
        SECOND_FORMAT => Some(2),
        THIRD_FORMAT => Some(3),
        _ => None,
    }
}

fn read_extent<'a>(found: &ArgMatches<'a>) -> Option<ExtentWord<'a>> {
    match found.get_str(SIZE) {
        Some(size) => Some(ExtentWord::Size(size)),
        None => Some(ExtentWord::Segments(found.get_str(SEGMENTS)?)),
    }
}

fn read_shape<'a>(found: &ArgMatches<'a>) -> Option<ShapeWords<'a>> {
    Some(ShapeWords {
        extent: read_extent(found)?,
        version: found.get_str(FORMAT).and_then(version_of),
        unit: found.get_str(UNIT),
    })
}

fn read_sim<'a>(found: &ArgMatches<'a>) -> Option<Request<'a>> {
    Some(Request::Sim {
        shape: read_shape(found)?,
        stop: found.get_str(STOP)?,
        left: left_of(found.get_str(LEFT)?)?,
    })
}

fn read_copy<'a>(found: &ArgMatches<'a>) -> Option<Request<'a>> {
    Some(Request::Copy {
        old: found.get_str(OLD)?,
        new: found.get_str(NEW)?,
        wait: found.get_flag(WAIT),
    })
}

fn read_mkfs<'a>(found: &ArgMatches<'a>) -> Option<Action<'a>> {
    Some(Action::Mkfs {
        shape: read_shape(found)?,
        force: found.get_flag(FORCE),
        reserve: found.get_flag(RESERVE),
    })
}

// Adds the words of a parameter to others. None where memory for them is refused.
fn add_words<'a>(words: &mut Vec<&'a str>, found: &ArgMatches<'a>, name: &str) -> Option<()> {
    match found.get_strs(name) {
        Some(more) => words.extend_from_slice(more).ok(),
        None => Some(()),
    }
}

// The paths and the files of a command line.
fn read_names<'a>(alloc: Global, found: &ArgMatches<'a>) -> Option<Names<'a>> {
    let mut paths = Vec::new(alloc);
    add_words(&mut paths, found, PATH)?;
    add_words(&mut paths, found, FROM)?;
    add_words(&mut paths, found, TO)?;
    let mut files = Vec::new(alloc);
    add_words(&mut files, found, FILE)?;
    Some(Names { paths, files })
}

// Those of a put of several files, whose words are all files, and of one of a folder, whose last
// word is the path.
fn read_put_names<'a>(alloc: Global, found: &ArgMatches<'a>) -> Option<Names<'a>> {
    let mut files = Vec::new(alloc);
    add_words(&mut files, found, PATH)?;
    add_words(&mut files, found, FILE)?;
    let mut paths = Vec::new(alloc);
    add_words(&mut paths, found, TARGET)?;
    if found.get_flag(RECURSIVE) {
        paths.push(files.pop()?).ok()?;
    }
    Some(Names { paths, files })
}

fn with_names<'a>(
    action: Option<Action<'a>>,
    names: Option<Names<'a>>,
    found: &ArgMatches<'a>,
) -> Option<Request<'a>> {
    Some(Request::Image {
        image: found.get_str(IMAGE)?,
        action: action?,
        names: names?,
    })
}

fn on_image<'a>(
    alloc: Global,
    action: Option<Action<'a>>,
    found: &ArgMatches<'a>,
) -> Option<Request<'a>> {
    with_names(action, read_names(alloc, found), found)
}

fn asks<'a>(alloc: Global, query: Query<'a>, found: &ArgMatches<'a>) -> Option<Request<'a>> {
    let wait = found.get_flag(WAIT);
    on_image(alloc, Some(Action::Query { query, wait }), found)
}

fn changes<'a>(alloc: Global, change: Change<'a>, found: &ArgMatches<'a>) -> Option<Request<'a>> {
    on_image(alloc, Some(Action::Change(change)), found)
}

fn read_list<'a>(found: &ArgMatches<'a>) -> Query<'a> {
    Query::List {
        long: found.get_flag(LONG),
        null: found.get_flag(NULL),
        json: found.get_flag(JSON),
    }
}

fn read_stat<'a>(found: &ArgMatches<'a>) -> Query<'a> {
    Query::Stat {
        json: found.get_flag(JSON),
    }
}

fn read_info<'a>(found: &ArgMatches<'a>) -> Query<'a> {
    Query::Info {
        json: found.get_flag(JSON),
    }
}

fn read_free<'a>(found: &ArgMatches<'a>) -> Query<'a> {
    Query::Free {
        human: found.get_flag(HUMAN),
        json: found.get_flag(JSON),
    }
}

fn read_get<'a>(alloc: Global, found: &ArgMatches<'a>) -> Option<Request<'a>> {
    match found.get_str(FILE) {
        Some(file) => asks(alloc, Query::Get(file), found),
        None => asks(alloc, Query::Cat, found),
    }
}

fn read_put<'a>(alloc: Global, found: &ArgMatches<'a>) -> Option<Request<'a>> {
    if found.get_flag(RECURSIVE) {
        let names = read_put_names(alloc, found);
        return with_names(Some(Action::Put(Source::Folder)), names, found);
    }
    match found.get_str(TARGET) {
        Some(_) => {
            let names = read_put_names(alloc, found);
            with_names(Some(Action::Put(Source::Each)), names, found)
        }
        None => on_image(alloc, Some(Action::Put(Source::One)), found),
    }
}

fn read_check<'a>(found: &ArgMatches<'a>) -> Action<'a> {
    let wait = found.get_flag(WAIT);
    if found.get_flag(VERBOSE) {
        Action::Explain { wait }
    } else {
        let json = found.get_flag(JSON);
        let query = Query::Check { json };
        Action::Query { query, wait }
    }
}

fn read_recover<'a>(found: &ArgMatches<'a>) -> Option<Action<'a>> {
    Some(Action::Recover {
        folder: found.get_str(FOLDER)?,
        older: found.get_str(CHECKPOINT) == Some(OLDER),
        scan: found.get_flag(SCAN),
    })
}

fn asked<'a>(alloc: Global, verb: Verb, found: &ArgMatches<'a>) -> Option<Request<'a>> {
    match verb {
        Verb::Mkfs => on_image(alloc, read_mkfs(found), found),
        Verb::Copy => read_copy(found),
        Verb::Mount => asks(alloc, Query::Mount, found),
        Verb::Check => on_image(alloc, Some(read_check(found)), found),
        Verb::Tree => asks(alloc, Query::Tree, found),
        Verb::Ls => asks(alloc, read_list(found), found),
        Verb::Cat => asks(alloc, Query::Cat, found),
        Verb::Stat => asks(alloc, read_stat(found), found),
        Verb::Get => read_get(alloc, found),
        Verb::Export => asks(alloc, Query::Export(found.get_str(FOLDER)?), found),
        Verb::Recover => on_image(alloc, read_recover(found), found),
        Verb::Put => read_put(alloc, found),
        Verb::Append => on_image(alloc, Some(Action::Put(Source::Behind)), found),
        Verb::Info => asks(alloc, read_info(found), found),
        Verb::Df => asks(alloc, read_free(found), found),
        Verb::Rm => {
            let below = found.get_flag(RECURSIVE);
            changes(alloc, Change::Remove { below }, found)
        }
        Verb::Mv => changes(alloc, Change::Rename, found),
        Verb::Mkdir => {
            let parents = found.get_flag(PARENTS);
            changes(alloc, Change::MakeDirectory { parents }, found)
        }
        Verb::Clean => changes(alloc, Change::Clean(found.get_str(PASSES)), found),
        Verb::Upgrade => changes(alloc, Change::Upgrade, found),
        Verb::Run if found.get_flag(STRICT) => Some(Request::Strict {
            image: found.get_str(IMAGE)?,
        }),
        Verb::Run => Some(Request::Run {
            image: found.get_str(IMAGE)?,
        }),
        Verb::Sim => read_sim(found),
    }
}

fn request_of<'a>(alloc: Global, matches: &ArgMatches<'a>) -> Option<Request<'a>> {
    let (name, found) = matches.subcommand()?;
    asked(alloc, verb_of(name)?, found)
}

fn refused<'a>(alloc: Global, error: &Error) -> Result<Request<'a>, RequestFault>
    ensures { IfOk result (λ request. IsStrict request → ⊥) }
{
    if error.kind() == ErrorKind::OutOfMemory {
        return Err(RequestFault::Memory(AllocError));
    }
    let text = format!(in alloc; "{error}")?;
    if error.use_stderr() {
        Err(RequestFault::Line(text))
    } else {
        Ok(Request::Help(text))
    }
}

fn has_word(words: &[String], wanted: &str) -> bool
    ensures { OnTrue result (HasWord words.now wanted.now) }
{
    for word in words {
        if word.as_str() == wanted {
            return true;
        }
    }
    false
}

// What was found. Only words that ask for a strict run get one, whatever was found.
fn as_asked<'a>(words: &[String], request: Request<'a>) -> Request<'a>
    ensures { IsStrict result → HasWord words.now (codes "--strict") }
{
    match request {
        Request::Strict { image } if !has_word(words, "--strict") => Request::Run { image },
        request => request,
    }
}

/// Reads a command line, whose first word is the program's name.
pub fn read_request<'a>(alloc: Global, words: &'a [String]) -> Result<Request<'a>, RequestFault>
    ensures { IfOk result (λ request. IsStrict request → HasWord words.now (codes "--strict")) }
{
    match program(alloc)?.try_get_matches_from(words) {
        Ok(matches) => match request_of(alloc, &matches) {
            Some(request) => Ok(as_asked(words, request)),
            None => Err(RequestFault::Memory(AllocError)),
        },
        Err(error) => refused(alloc, &error),
    }
}
