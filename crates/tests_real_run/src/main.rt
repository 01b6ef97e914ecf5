//! A run over one real link, without threads: real files, TCP and standard output.
#![tactic(auto)]

use real_edge::{FileDisk, StdClock, StdOut, TcpLinks};
use solo_run::{Finished, run_alone};
use std::io::ErrorKind;
use std::process::ExitCode;
use std::random::RandomSource;
use std::rt::Env;
use std::sync::atomic::AtomicBool;
use std::{env, io};

// The status where the run can't begin, for want of memory or of a random number.
const NOT_BEGUN: u8 = 40;

fn main(rt: HostRuntime) -> ExitCode {
    // Nobody else ends the run, so this is never set.
    let over = AtomicBool::new(false);
    ExitCode::from(download(&rt, &over).unwrap_or(NOT_BEGUN))
}

fn download<'a>(rt: &'a HostRuntime, over: &'a AtomicBool) -> io::Result<u8> {
    let alloc = rt.alloc();
    let words = words(rt)?;
    let mut links = Vec::new(alloc);
    links.push((TcpLinks::new(rt, over), StdClock::new(rt)?))?;
    let mut gids = [0; 8];
    rt.fill_bytes(&mut gids)?;
    let gids = u64::from_ne_bytes(gids);
    let mut out = StdOut::new(rt.stdout());
    let disk = FileDisk::new(rt);
    let doors = Vec::<((), StdClock<HostRuntime>)>::new(alloc);
    let Finished {
        ending,
        disk: _disk,
        links: _links,
        doors: _doors,
        journal: _journal,
    } = run_alone(alloc, &words, disk, links, doors, gids, &mut out);
    Ok(ending.code())
}

// The words of the command line after the program's name. A word that isn't UTF-8 makes the whole line faulty, as no
// words at all are.
fn words(rt: &(impl Env + AllocGlobal)) -> io::Result<Vec<String>> {
    let mut words = Vec::new(rt.alloc());
    match env::args(rt) {
        Ok(args) => {
            for word in args.skip(1) {
                words.push(word)?;
            }
        }
        Err(e) if e.kind() == ErrorKind::OutOfMemory => return Err(e),
        Err(_) => {}
    }
    Ok(words)
}
