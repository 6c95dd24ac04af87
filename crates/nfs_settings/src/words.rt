//! What the command line asks for.

ghost use Rattle.std.specs.Prelude.{◌≡◌, ◌≤◌, IfSome, IfOk, MatchResult, Some, None, is_none, true, map};
ghost use Rattle.std.specs.String.{string_bytes};
ghost use Rattle.nfs_settings.specs.CommandLine.{MayBeAsked, at_once};
ghost use Rattle.nfs_settings.specs.ExitStatus.{IsOfCommandLine};

use crate::asked::Order;
use crate::fault::Fault;
use clap::error::ErrorKind;
use clap::{Arg, ArgAction, ArgMatches, Command};
use nfs_serve::LAST_CONNECTION;
use std::alloc::{AllocError, Global};

/// The most connections at once that a command line asks for.
pub const MOST_AT_ONCE: u32 = LAST_CONNECTION + 1;

/// The most connections of one run.
const MAX_CONNECTIONS: u32 = 1_000_000;

/// The most seconds from one line of status to the next.
pub const MAX_STATUS: u32 = 86_400;

/// The words of a command line as texts, all of them and whole.
///
/// `AllocError` for want of memory.
pub fn texts_of<'a>(alloc: Global, words: &'a [String]) -> Result<Vec<&'a str>, AllocError>
    ensures { IfOk result (λ texts. map (λ t. t.now) texts.items ≡ map string_bytes words.now) }
{
    let mut texts = Vec::new(alloc);
    for word in words {
        texts.push(word.as_str())?;
    }
    Ok(texts)
}

/// Reads the words of a command line, the program's name first.
///
/// `Arguments` where they are no order, help included; `Start` for want of memory.
pub fn order<'a>(alloc: Global, words: &'a [&'a str]) -> Result<Order<'a>, Fault>
    ensures { MatchResult result (λ order. MayBeAsked order) (λ fault. IsOfCommandLine fault) }
{
    let command = command(alloc).map_err(|_| Fault::Start)?;
    match command.try_get_matches_from(words) {
        Ok(matches) => order_of(&matches).ok_or(Fault::Arguments),
        Err(e) => match e.kind() {
            ErrorKind::OutOfMemory => Err(Fault::Start),
            _ => Err(Fault::Arguments),
        },
    }
}

/// The command line that is understood.
fn command<'a>(alloc: Global) -> Result<Command<'a>, AllocError> {
    let replay = replay_command(alloc)?;
    let nfs41d = Command::new(alloc, "nfs41d")
        .subcommand_required(true)
        .subcommand(replay)?;
    match serve_command(alloc) {
        Ok(serve) => nfs41d.subcommand(serve),
        Err(e) => Err(e),
    }
}

/// The order to run a script.
fn replay_command<'a>(alloc: Global) -> Result<Command<'a>, AllocError> {
    Command::new(alloc, "replay").arg(option(alloc, "settings"))
}

/// The order to serve connections.
fn serve_command<'a>(alloc: Global) -> Result<Command<'a>, AllocError> {
    Command::new(alloc, "serve")
        .arg(option(alloc, "listen").required(true))?
        .arg(option(alloc, "connections"))?
        .arg(option(alloc, "at-once"))?
        .arg(option(alloc, "settings"))?
        .arg(option(alloc, "status"))?
        .arg(option(alloc, "metrics"))?
        .arg(option(alloc, "client-list"))
}

/// An option that takes a value.
fn option<'a>(alloc: Global, name: &'a str) -> Arg<'a> {
    Arg::new(alloc, name).long(name).action(ArgAction::Set)
}

fn order_of<'a>(matches: &ArgMatches<'a>) -> Option<Order<'a>>
    ensures { IfSome result (λ order. MayBeAsked order) }
{
    let (name, found) = matches.subcommand()?;
    match name {
        "replay" => Some(Order::Replay {
            settings: found.get_str("settings"),
        }),
        "serve" => {
            let listen = found.get_str("listen")?;
            let connections = given(found.get_str("connections"), MAX_CONNECTIONS)?;
            let asked = given(found.get_str("at-once"), MOST_AT_ONCE)?;
            let status = given(found.get_str("status"), MAX_STATUS)?;
            Some(Order::Serve {
                listen,
                connections,
                at_once: at_once(connections, asked),
                settings: found.get_str("settings"),
                status,
                metrics: found.get_str("metrics"),
                clients: found.get_str("client-list"),
            })
        }
        _ => None,
    }
}

/// How many connections are asked for at once: as many as are said; else one, where it is said how many there are in all.
fn at_once(connections: Option<u32>, asked: Option<u32>) -> Option<u32>
    ensures { result ≡ at_once connections asked }
{
    match asked {
        Some(asked) => Some(asked),
        None => connections.and(Some(1)),
    }
}

/// The count that an option is given, if it is there: `None` where its text is none from 1 on.
fn given(text: Option<&str>, most: u32) -> Option<Option<u32>>
    ensures range { IfSome result (λ given. IfSome given (λ count. (1 ≤ count) × (count ≤ most))) }
    ensures none { result ≡ Some None → is_none text.entry ≡ true }
{
    match text {
        Some(text) => match count_of(text, most) {
            Some(count) => Some(Some(count)),
            None => None,
        },
        None => Some(None),
    }
}

/// A count of connections.
pub fn count_of(text: &str, most: u32) -> Option<u32>
    ensures { IfSome result (λ count. (1 ≤ count) × (count ≤ most)) }
{
    let count = text.parse::<u32>().ok()?;
    if count >= 1 && count <= most {
        Some(count)
    } else {
        None
    }
}
