ghost use Rattle.commands.specs.Arguments.{accepted, argument_in, asked_of, command_named, finished, reading_of, set, takes, texts_of, understood};
ghost use Rattle.commands.specs.Understood.{UnderstoodAs, Unclear};
ghost use Rattle.std.specs.Result.{result_ok};
ghost use Rattle.std.specs.Prelude.{◌≡◌};

use crate::failure::Failure;
use crate::numbers::{number_in, word_in};
use crate::request::{Options, Request};
use std::alloc::Global;
use std::str::FromStr;

// Command is what the first argument names.
#[derive(Clone, Copy)]
enum Command {
    Check,
    List,
    Run,
}

// Setting is an option that has a number behind it.
#[derive(Clone, Copy)]
enum Setting {
    Budget,
    Heap,
    Call,
    Operand,
    Room,
}

// Argument is an argument behind the path of a file.
#[derive(Clone, Copy)]
enum Argument {
    Json,
    Setting(Setting),
    Word(i32),
}

// Reading is a command, the path of its file, and what the arguments behind the path have said so far.
#[derive(Drop)]
struct Reading<'a> {
    heap: Global,
    command: Command,
    path: &'a str,
    words: Vec<i32>,
    options: Options,
    json: bool,
    awaited: Option<Setting>,
}

// Unknown is what is found wrong with a text that names nothing.
#[derive(Clone, Copy)]
struct Unknown;

impl FromStr for Command {
    type Err = Unknown;

    ghost from_str_gives = { λ name command. result_ok command ≡ command_named name };

    fn from_str(name: &str) -> Result<Command, Unknown> {
        match name {
            "check" => Ok(Command::Check),
            "list" => Ok(Command::List),
            "run" => Ok(Command::Run),
            _ => Err(Unknown),
        }
    }
}

// An option is read by its name, and a word as its number.
impl FromStr for Argument {
    type Err = Unknown;

    ghost from_str_gives = { λ text argument. result_ok argument ≡ argument_in text };

    fn from_str(text: &str) -> Result<Argument, Unknown> {
        match text {
            "--json" => Ok(Argument::Json),
            "--budget" => Ok(Argument::Setting(Setting::Budget)),
            "--heap" => Ok(Argument::Setting(Setting::Heap)),
            "--call" => Ok(Argument::Setting(Setting::Call)),
            "--operand" => Ok(Argument::Setting(Setting::Operand)),
            "--room" => Ok(Argument::Setting(Setting::Room)),
            _ => word_in(text).map(Argument::Word).ok_or(Unknown),
        }
    }
}

impl Command {
    // takes tells whether a command has such an argument.
    fn takes(self, argument: Argument) -> bool
        ensures { result ≡ takes self argument }
    {
        match (self, argument) {
            (Command::Run, _) | (Command::Check, Argument::Json) => true,
            _ => false,
        }
    }
}

impl Options {
    // set gives one of the options another value.
    fn set(&mut self, setting: Setting, n: u32)
        ensures { self.new ≡ set setting n self.old }
    {
        match setting {
            Setting::Budget => self.budget = n,
            Setting::Heap => self.heap = n,
            Setting::Call => self.call = n,
            Setting::Operand => self.operand = n,
            Setting::Room => self.room = n,
        }
    }
}

// unclear is the failure to understand an argument.
fn unclear(heap: Global, text: &str) -> Failure
    ensures { Unclear text.now result }
{
    String::from_str(heap, text).map_or(Failure::NoMemory, Failure::Unclear)
}

impl Reading<'_> {
    // accept takes in one more argument.
    fn accept(&mut self, text: &str) -> Result<(), Failure>
        ensures reading { UnderstoodAs (λ _. reading_of self.new) (accepted self.old.command text.now (reading_of self.old)) result }
        ensures command { self.new.command ≡ self.old.command }
        ensures path { self.new.path.now ≡ self.old.path.now }
    {
        if let Some(setting) = self.awaited {
            let n = number_in(text).ok_or_else(|| unclear(self.heap, text))?;
            self.options.set(setting, n);
            self.awaited = None;
            return Ok(());
        }
        let argument = text
            .parse::<Argument>()
            .ok()
            .filter(|argument| self.command.takes(*argument))
            .ok_or_else(|| unclear(self.heap, text))?;
        match argument {
            Argument::Json => self.json = true,
            Argument::Setting(setting) => self.awaited = Some(setting),
            Argument::Word(word) => self.words.push(word)?,
        }
        Ok(())
    }

    // finish gives the request that the command makes when all its arguments are read.
    fn finish(self) -> Result<Request, Failure>
        ensures { UnderstoodAs asked_of (finished self.entry.command self.entry.path.now (reading_of self.entry)) result }
    {
        let Reading {
            heap,
            command,
            path,
            words,
            options,
            json,
            awaited,
        } = self;
        if awaited.is_some() {
            return Err(Failure::Missing);
        }
        let path = String::from_str(heap, path)?;
        match command {
            Command::Check => Ok(Request::Check { path, json }),
            Command::List => Ok(Request::List { path }),
            Command::Run => Ok(Request::Run {
                path,
                words,
                options,
                json,
            }),
        }
    }
}

// read_arguments gives the request that arguments make, or tells why they make none.
pub fn read_arguments(heap: Global, arguments: &[&str]) -> Result<Request, Failure>
    ensures { UnderstoodAs asked_of (understood (texts_of arguments.now)) result }
{
    let [name, rest @ ..] = arguments else {
        return Ok(Request::Sample);
    };
    let command = name
        .parse::<Command>()
        .ok()
        .ok_or_else(|| unclear(heap, name))?;
    let [path, texts @ ..] = rest else {
        return Err(Failure::Missing);
    };
    let mut reading = Reading {
        heap,
        command,
        path,
        words: Vec::new(heap),
        options: Options::DEFAULTS,
        json: false,
        awaited: None,
    };
    for text in texts {
        reading.accept(text)?;
    }
    reading.finish()
}
