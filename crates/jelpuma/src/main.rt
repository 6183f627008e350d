// Owns the program: it reads arguments and files, and prints the answer.
// Promises nothing beyond what the layers below promise: what is asked for, what is answered and how it is worded is theirs.
// Does not continue a run, and does not read the standard input.
//
// main.rt: arguments in, a reply out. files.rt: object files. object_file.rt: what is done with one. sample.rt: the built-in sample.
#![tactic(auto)]

mod files;
mod object_file;
mod sample;

use commands::arguments::read_arguments;
use commands::failure::Failure;
use commands::reply::Reply;
use commands::request::{Options, Request};
use files::read_file;
use sample::sample;
use std::alloc::Global;
use std::io::Write;
use std::process::ExitCode;
use std::{env, io};

// arguments gives the arguments behind the program's own name.
fn arguments(rt: &HostRuntime) -> Result<Vec<String>, Failure> {
    let all = env::args(rt).map_err(|error| match error.kind() {
        io::ErrorKind::OutOfMemory => Failure::NoMemory,
        _ => Failure::NotText,
    })?;
    Ok(all.skip(1).collect(rt.alloc())?)
}

// requested gives what the arguments ask for.
fn requested(heap: Global, arguments: &[String]) -> Result<Request, Failure> {
    let texts: Vec<&str> = arguments.iter().map(String::as_str).collect(heap)?;
    read_arguments(heap, &texts)
}

// reply does what the arguments ask for.
fn reply(rt: &HostRuntime) -> Result<Reply, Failure> {
    let heap = rt.alloc();
    match requested(heap, &arguments(rt)?)? {
        Request::Sample => sample(heap)?.run(heap, &[], Options::DEFAULTS, false),
        Request::Check { path, json } => read_file(rt, path)?.check(heap, json),
        Request::List { path } => read_file(rt, path)?.list(heap),
        Request::Run {
            path,
            words,
            options,
            json,
        } => read_file(rt, path)?.run(heap, &words, options, json),
    }
}

// main prints the reply and ends with its status: 0 for an answer that is written, else 1.
fn main(rt: HostRuntime) -> ExitCode {
    match reply(&rt) {
        Ok(Reply::Answered(bytes)) => match rt.stdout().write_all(&bytes) {
            Ok(()) => ExitCode::SUCCESS,
            Err(_) => ExitCode::FAILURE,
        },
        Ok(Reply::Refused(bytes)) => {
            let _ = rt.stderr().write_all(&bytes);
            ExitCode::FAILURE
        }
        Err(failure) => {
            let _ = rt.eprint(failure);
            ExitCode::FAILURE
        }
    }
}
