// What a line asks for: its verb, and what stands after it.
ghost use Rattle.std.specs.Prelude.{◌≡◌, ℕ, cond, List, length, nat_lt};
ghost use Rattle.script.specs.Grammar.{is, command_of, one_word, two_words, kind_of_one, three_words, four_words};
ghost use Rattle.script.specs.Taken.{WordTaken, LineTaken};

use super::Line;
use crate::command::Command;
use crate::word::Word;
use sched::{Call, Kind};

impl Line {
    // A byte of it has come. A match, since with `as_ref` and a closure the proof didn't close.
    pub fn is_begun(&self) -> bool
        ensures { (xs : List ℕ) → LineTaken self.now xs → result ≡ nat_lt 0 (length xs) }
    {
        match &self.ended {
            Some(ended) => !(ended.is_empty() && self.last.is_empty()),
            None => true,
        }
    }

    // What the line asks for, if it is a command.
    pub fn command(&self) -> Option<Command>
        ensures { (xs : List ℕ) → LineTaken self.now xs → result ≡ command_of xs }
    {
        let last = &self.last;
        match self.ended.as_ref()?.as_slice() {
            [] => one_word(last),
            [verb] => two_words(verb, last),
            [verb, first] => three_words(verb, first, last),
            [verb, first, second] => four_words(verb, first, second, last),
            _ => None,
        }
    }
}

fn one_word(verb: &Word) -> Option<Command>
    ensures { (v : List ℕ) → WordTaken verb.now v → result ≡ one_word v }
{
    match verb.name()? {
        b"had" => Some(Command::Had),
        _ => None,
    }
}

fn two_words(verb: &Word, number: &Word) -> Option<Command>
    ensures { (v a : List ℕ) → WordTaken verb.now v → WordTaken number.now a → result ≡ two_words v a }
{
    let n = number.number()?;
    match verb.name()? {
        b"tick" => Some(Command::Tick(n)),
        b"wake" => Some(Command::Call(Call::Wake(n))),
        b"sleep" => Some(Command::Call(Call::Sleep(n))),
        b"end" => Some(Command::Call(Call::End(n))),
        _ => None,
    }
}

fn three_words(verb: &Word, first: &Word, second: &Word) -> Option<Command>
    ensures { (v a b : List ℕ) → WordTaken verb.now v → WordTaken first.now a → WordTaken second.now b → result ≡ three_words v a b }
{
    let n = second.number()?;
    match verb.name()? {
        b"make" => kind_of_one(first, n),
        b"lock" => Some(Command::Call(Call::Lock(first.number()?, n))),
        b"unlock" => Some(Command::Call(Call::Unlock(first.number()?, n))),
        b"any" => Some(Command::Any(first.number()?, n)),
        _ => None,
    }
}

// The kinds that have one number.
fn kind_of_one(kind: &Word, n: u32) -> Option<Command>
    ensures { (a : List ℕ) → WordTaken kind.now a → result ≡ kind_of_one a n }
{
    match kind.name()? {
        b"fixed" => Some(Command::Call(Call::Make(Kind::Fixed(n)))),
        b"fair" => Some(Command::Call(Call::Make(Kind::Fair(n)))),
        _ => None,
    }
}

fn four_words(verb: &Word, kind: &Word, quota: &Word, period: &Word) -> Option<Command>
    ensures { (v a b c : List ℕ) → WordTaken verb.now v → WordTaken kind.now a → WordTaken quota.now b → WordTaken period.now c → result ≡ four_words v a b c }
{
    let quota = quota.number()?;
    let period = period.number()?;
    match verb.name()? {
        b"make" => kind_of_two(kind, quota, period),
        _ => None,
    }
}

// The kind that has two.
fn kind_of_two(kind: &Word, quota: u32, period: u32) -> Option<Command>
    ensures { (a : List ℕ) → WordTaken kind.now a → result ≡ cond (is a "reserved") (Some (Command.Call (Call.Make (Kind.Reserved quota period)))) None }
{
    match kind.name()? {
        b"reserved" => Some(Command::Call(Call::Make(Kind::Reserved(quota, period)))),
        _ => None,
    }
}
