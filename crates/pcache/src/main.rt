#![tactic(auto)]
//! The program of the page cache. `pcache run` reads a script of cache calls and prints what each answers; `pcache storm` makes
//! calls from many threads at once, and replays their history; `pcache torture` makes random calls beside plain files, over a device
//! that fails by chance; `pcache over` serves a file that is there; `pcache shards` is a storm over a cache of shards.
//!
//! The crate `script` does the first, `storm` the second and the last, `torture` the third, and `overfile` the fourth.
//!
//! Floor: programs.

ghost use Rattle.std.specs.Prelude.{◌≡◌, IsOkUnless};
ghost use Rattle.textline.specs.Stops.{IsStatus, status_of};

use overfile::run_over;
use script::{run_script, say};
use std::alloc::Global;
use std::env;
use std::fs::{File, Files};
use std::io::{BufReader, BufWriter, IsTerminal, Write};
use std::process::ExitCode;
use std::string::String;
use std::sync::Wait;
use std::thread::Threads;
use std::time::SystemTime;
use storm::{BLOCKS, Weather, run_shards, run_storm};
use storm_text::say_usage;
use textline::words::number;
use textline::{Printer, Stop};
use torture::run_torture;

/// What the program is asked to do.
#[derive(Drop)]
enum Request {
    Run,
    /// A storm, with the words after `storm`.
    Storm(Vec<String>),
    /// A torture, with the words after `torture`.
    Torture(Vec<String>),
    /// A file that is served, with the words after `over`.
    Over(Vec<String>),
    /// A storm over shards, with the words after `shards`.
    Shards(Vec<String>),
    Neither,
}

fn main(rt: HostRuntime) -> ExitCode {
    let status = match request_of(&rt) {
        Ok(Request::Run) => run_streams(&rt),
        Ok(Request::Storm(words)) => {
            let mut out = Printer::new(rt.alloc(), rt.stdout());
            run_threads(
                &rt,
                rt.alloc(),
                &words,
                weather(&rt),
                &mut out,
                &mut rt.stderr(),
            )
        }
        Ok(Request::Torture(words)) => {
            let mut out = Printer::new(rt.alloc(), rt.stdout());
            let watched = rt.stderr().is_terminal();
            run_rounds(rt.alloc(), &words, watched, &mut out, &mut rt.stderr())
        }
        Ok(Request::Over(words)) => serve_file(&rt, &words),
        Ok(Request::Shards(words)) => {
            let mut out = Printer::new(rt.alloc(), rt.stdout());
            let weather = weather(&rt);
            storm_shards(&rt, rt.alloc(), &words, weather, &mut out, &mut rt.stderr())
        }
        Ok(Request::Neither) => {
            let _ = say_usage(&mut rt.stderr());
            2
        }
        Err(stop) => say_stop(&mut rt.stderr(), stop),
    };
    ExitCode::from(status)
}

/// What the arguments ask for. It is refused by want of memory alone.
fn request_of(rt: &HostRuntime) -> Result<Request, Stop>
    ensures { IsOkUnless result Stop.Memory }
{
    let mut words = match env::args(rt) {
        Ok(words) => words.skip(1),
        Err(error) => {
            return match Stop::of_input(&error) {
                Stop::Memory => Err(Stop::Memory),
                _ => Ok(Request::Neither),
            };
        }
    };
    let Some(first) = words.next() else {
        return Ok(Request::Neither);
    };
    let mut rest = Vec::new(rt.alloc());
    for word in words {
        if rest.push(word).is_err() {
            return Err(Stop::Memory);
        }
    }
    match first.as_str() {
        "run" if rest.is_empty() => Ok(Request::Run),
        "storm" => Ok(Request::Storm(rest)),
        "torture" => Ok(Request::Torture(rest)),
        "over" => Ok(Request::Over(rest)),
        "shards" => Ok(Request::Shards(rest)),
        _ => Ok(Request::Neither),
    }
}

/// Runs the script on standard input.
fn run_streams(rt: &HostRuntime) -> u8
    ensures { IsStatus result }
{
    let alloc = rt.alloc();
    match (
        BufReader::new(alloc, rt.stdin()),
        BufWriter::new(alloc, rt.stdout()),
    ) {
        (Ok(reader), Ok(out)) => {
            let mut out = Printer::new(alloc, out);
            run_script(alloc, reader, &mut out, &mut rt.stderr()).status()
        }
        _ => say_stop(&mut rt.stderr(), Stop::Memory),
    }
}

/// Runs the storm that these words ask for.
fn run_threads<R: Threads + Wait + Files<File = File> + Sync, W: Write, E: Write>(
    rt: &R,
    alloc: Global,
    owned: &[String],
    weather: Weather,
    out: &mut Printer<W>,
    err: &mut E,
) -> u8 {
    let mut words = Vec::new(alloc);
    for word in owned {
        if words.push(word.as_str()).is_err() {
            return say_stop(err, Stop::Memory);
        }
    }
    run_storm(rt, alloc, &words, weather, out, err)
}

/// Runs the storm over shards that these words ask for.
fn storm_shards<R: Threads + Wait + Sync, W: Write, E: Write>(
    rt: &R,
    alloc: Global,
    owned: &[String],
    weather: Weather,
    out: &mut Printer<W>,
    err: &mut E,
) -> u8 {
    let mut words = Vec::new(alloc);
    for word in owned {
        if words.push(word.as_str()).is_err() {
            return say_stop(err, Stop::Memory);
        }
    }
    run_shards(rt, alloc, &words, weather, out, err)
}

/// Plays the rounds that these words ask for.
fn run_rounds<W: Write, E: Write>(
    alloc: Global,
    owned: &[String],
    watched: bool,
    out: &mut Printer<W>,
    err: &mut E,
) -> u8 {
    let mut words = Vec::new(alloc);
    for word in owned {
        if words.push(word.as_str()).is_err() {
            return say_stop(err, Stop::Memory);
        }
    }
    run_torture(alloc, &words, watched, out, err)
}

/// Serves the file that these words ask for to the lines of standard input.
fn serve_file(rt: &HostRuntime, owned: &[String]) -> u8 {
    let alloc = rt.alloc();
    let mut words = Vec::new(alloc);
    for word in owned {
        if words.push(word.as_str()).is_err() {
            return say_stop(&mut rt.stderr(), Stop::Memory);
        }
    }
    match (
        BufReader::new(alloc, rt.stdin()),
        BufWriter::new(alloc, rt.stdout()),
    ) {
        (Ok(reader), Ok(out)) => {
            let mut out = Printer::new(alloc, out);
            run_over(rt, alloc, &words, reader, &mut out, &mut rt.stderr())
        }
        _ => say_stop(&mut rt.stderr(), Stop::Memory),
    }
}

/// What the environment says of a storm. The seed is the time of day where it says none, so that each storm is another.
fn weather(rt: &HostRuntime) -> Weather {
    Weather {
        seed: variable(rt, "PCACHE_SEED").unwrap_or(now(rt)),
        faults: variable(rt, "PCACHE_FAULTS").unwrap_or(0),
        blocks: BLOCKS,
    }
}

/// The number in a variable of the environment, where it has one.
fn variable(rt: &HostRuntime, name: &str) -> Option<u64> {
    number(env::var(rt, name).ok()?.as_bytes())
}

/// The time of day in nanoseconds, or 0 where there is none.
fn now(rt: &HostRuntime) -> u64 {
    let Ok(time) = SystemTime::now(rt) else {
        return 0;
    };
    match time.duration_since(SystemTime::UNIX_EPOCH) {
        Ok(since) => u64::try_from(since.as_nanos()).unwrap_or(0),
        Err(_) => 0,
    }
}

/// Says why the program ends, and gives the status.
fn say_stop<E: Write>(err: &mut E, stop: Stop) -> u8
    ensures { result ≡ status_of stop }
{
    let _ = say(err, stop);
    stop.status()
}
