//! The downloader over real files, TCP and standard output.
#![tactic(auto)]

ghost use Rattle.std.specs.Prelude.{◌≡◌, ◌≤◌, IfOk, length, map, string_bytes};
ghost use Rattle.aria_cli.specs.Exits.{ExitsByOwnRun, ExitsByRun, ExitsBySome};
ghost use Rattle.aria_top.specs.declared.limits.TheConstants.{CONSOLE_DOORS};
ghost use Rattle.shared_run.specs.declared.limits.TheConstants.{MAX_DOORS, MAX_LINKS};

use aria_top::{CONSOLE_DOORS, FinishedRun, Needs, needs_of, run};
use command_meanings::{Meaning, ServeLine, meaning_of};
use dl_clock::{Clock, MemClock};
use dl_disk::Disk;
use dl_kinds::{ExitStatus, NoMemory, Sink, Text};
use door_source::{Doors, MemDoors};
use fault_notes::Noted;
use link_source::Links;
use load_setup::{SoundDisk, SoundLinks, UnseenSink};
use machine_core::Journal;
use option_set::{Options, Word};
use payload_repair::RepairWatch;
use real_edge::{EdgeDisk, FileDisk, FolderDisk, StdClock, StdOut, TcpDoors, TcpLinks, listen_on};
use run_readout::{CheckReadout, Progress, Terminal, WatchedDisk, WatchedLinks, WatchedSink};
use run_report::RunEnding;
use run_words::{Edges, reasons};
use std::alloc::Global;
use std::io::{ErrorKind, IsTerminal, Stderr, Stdout, Write};
use std::net::{Ipv4Addr, SocketAddr, SocketAddrV4, TcpListener};
use std::process::ExitCode;
use std::random::RandomSource;
use std::rt::Env;
use std::sync::Wait;
use std::sync::atomic::AtomicBool;
use std::thread::Threads;
use std::{env, io};

type RealClock<'a> = StdClock<'a, HostRuntime>;

type Link<'a> = WatchedLinks<'a, TcpLinks<'a, HostRuntime>, RealClock<'a>, Stderr>;

type Door<'a> = TcpDoors<'a, HostRuntime>;

type RealDisk<'a> = WatchedDisk<'a, EdgeDisk<'a, HostRuntime>>;

type Output<'a> = WatchedSink<'a, StdOut<Stdout>, Stderr>;

// What the run shares with its edges: how far it has come, and whether it is over.
#[derive(Drop)]
struct Shared {
    progress: Progress,
    over: AtomicBool,
}

fn main(rt: HostRuntime) -> ExitCode {
    let shared = Shared {
        progress: Progress::new(),
        over: AtomicBool::new(false),
    };
    let code = match program(&rt, &rt, &shared) {
        Ok(code) => code,
        Err(error) => {
            let _told = eprintln!(rt; "aria_cli: the run can't begin: {error}").is_ok();
            ExitStatus::NoMemory.code()
        }
    };
    ExitCode::from(code)
}

fn program<'a, R: Threads + Wait + Sync>(
    threads: &R,
    rt: &'a HostRuntime,
    shared: &'a Shared,
) -> io::Result<u8>
    ensures { IfOk result (ExitsBySome ⟦<SoundDisk as Disk>⟧ ⟦<SoundLinks as Links>⟧
        ⟦<MemClock as Clock>⟧ ⟦<MemDoors as Doors>⟧ ⟦<UnseenSink as Sink>⟧ ⟦<RealDisk<'a> as Disk>⟧
        ⟦<Link<'a> as Links>⟧ ⟦<RealClock<'a> as Clock>⟧ ⟦<Door<'a> as Doors>⟧ ⟦<Output<'a> as Sink>⟧) }
{
    let words = words(rt)?;
    // Words without a meaning need one link, which isn't used.
    let needs = needs_of(rt.alloc(), &words)?.unwrap_or(Needs {
        links: 1,
        doors: 0,
        port: 0,
    });
    let folder = folder_of(rt.alloc(), &words)?;
    let listener = listener(rt, needs)?;
    if let Some(listener) = &listener {
        tell_who_is_served(rt, &words, listener)?;
    }
    run_at(
        threads,
        rt,
        shared,
        &words,
        needs,
        folder,
        listener.as_ref(),
    )
}

// The folder that the words ask to serve.
fn folder_of(alloc: Global, words: &[String]) -> io::Result<Option<Text>> {
    match meaning_of(alloc, words)? {
        Some(Meaning::Serve(line)) => Ok(Some(line.dir)),
        Some(Meaning::Download(_line)) => Ok(None),
        Some(Meaning::Load(_number)) => Ok(None),
        Some(Meaning::Check(_line)) => Ok(None),
        None => Ok(None),
    }
}

// Where a folder is served; and that a console without a secret is steered by all who reach it.
fn tell_who_is_served(
    rt: &HostRuntime,
    words: &[String],
    listener: &TcpListener,
) -> io::Result<()> {
    let at = listener.local_addr()?;
    match meaning_of(rt.alloc(), words)? {
        Some(Meaning::Serve(line)) => tell_folder(rt, &line, at),
        Some(Meaning::Download(line)) => tell_console(rt, &line.globals, at),
        Some(Meaning::Load(_number)) => Ok(()),
        Some(Meaning::Check(_line)) => Ok(()),
        None => Ok(()),
    }
}

fn tell_folder(rt: &HostRuntime, line: &ServeLine, at: SocketAddr) -> io::Result<()> {
    let dir = line.dir.as_str();
    eprintln!(rt; "aria_cli: the files below {dir} are served at http://{at}/")
}

fn tell_console(rt: &HostRuntime, globals: &Options, at: SocketAddr) -> io::Result<()> {
    if globals.text(Word::RpcSecret).is_some() {
        return Ok(());
    }
    eprintln!(rt; "aria_cli: whoever reaches {at} steers the run: --rpc-secret isn't set")
}

// Why a run of these words ended so, in lines for people.
fn why<D: Noted, L: Noted, K>(
    alloc: Global,
    words: &[String],
    ending: RunEnding,
    journal: &Journal,
    disk: &D,
    links: &[(L, K)],
) -> Result<String, NoMemory> {
    let mut noted = Vec::new(alloc);
    for (link, _) in links {
        noted.push(link.notes())?;
    }
    let edges = Edges {
        disk: disk.notes(),
        links: &noted,
    };
    reasons(alloc, words, ending, journal, &edges)
}

// What can't be written is left out.
fn tell_why<E: Write>(reasons: Result<String, NoMemory>, progress: &Progress, errors: &mut E) {
    let text = match &reasons {
        Ok(text) => text.as_str(),
        Err(NoMemory) => "aria_cli: memory is wanting to tell why\n",
    };
    if !text.is_empty() {
        progress.clear(errors);
        let _told = errors.write_all(text.as_bytes()).is_ok();
    }
}

/// The exit status of the run of these words over all that is given: the code of its ending. Why it isn't 0 is told as an error.
fn exit_status<
    R: Threads + Wait + Sync,
    D: Disk + Noted + Send + Drop,
    L: Links + Noted + Send + Drop,
    A: Doors + Send + Drop,
    K: Clock + Send + Drop,
    O: Sink,
    W: RepairWatch,
    E: Write,
>(
    rt: &R,
    alloc: Global,
    words: &[String],
    disk: D,
    over: &AtomicBool,
    links: Vec<(L, K)>,
    doors: Vec<(A, K)>,
    gids: u64,
    out: &mut O,
    watch: &mut W,
    progress: &Progress,
    errors: &mut E,
) -> u8
    requires links { (1 ≤ length links.items) × (length links.items ≤ MAX_LINKS) }
    requires doors { length doors.items ≤ MAX_DOORS }
    ensures { ExitsByOwnRun ⟦<SoundDisk as Disk>⟧ ⟦<SoundLinks as Links>⟧ ⟦<MemClock as Clock>⟧
        ⟦<MemDoors as Doors>⟧ ⟦<UnseenSink as Sink>⟧ D.Disk L.Links K.Clock A.Doors O.Sink
        (map string_bytes words.now) gids disk links.items doors.items out.old out.new result }
{
    let FinishedRun {
        ending,
        disk: noted_disk,
        links: noted_links,
        doors: _doors,
        transcripts: _transcripts,
        journal,
    } = run(rt, alloc, words, disk, over, links, doors, gids, out, watch);
    let told = why(alloc, words, ending, &journal, &noted_disk, &noted_links);
    tell_why(told, progress, errors);
    ending.code()
}

fn run_at<'a, R: Threads + Wait + Sync>(
    threads: &R,
    rt: &'a HostRuntime,
    shared: &'a Shared,
    words: &[String],
    needs: Needs,
    folder: Option<Text>,
    listener: Option<&'a TcpListener>,
) -> io::Result<u8>
    requires { (1 ≤ needs.links) × (needs.links ≤ MAX_LINKS) }
    ensures { IfOk result (ExitsByRun ⟦<SoundDisk as Disk>⟧ ⟦<SoundLinks as Links>⟧
        ⟦<MemClock as Clock>⟧ ⟦<MemDoors as Doors>⟧ ⟦<UnseenSink as Sink>⟧ ⟦<RealDisk<'a> as Disk>⟧
        ⟦<Link<'a> as Links>⟧ ⟦<RealClock<'a> as Clock>⟧ ⟦<Door<'a> as Doors>⟧ ⟦<Output<'a> as Sink>⟧
        (map string_bytes words.now)) }
{
    let alloc = rt.alloc();
    let Shared { progress, over } = shared;
    let links = links(rt, shared, needs.links)?;
    let doors = doors(rt, listener, over, needs.doors.min(CONSOLE_DOORS))?;
    let gids = random_number(rt)?;
    let mut out = WatchedSink::new(StdOut::new(rt.stdout()), progress, rt.stderr());
    let mut watch = CheckReadout::new(progress, terminal(rt)?, rt.stderr());
    let mut errors = rt.stderr();
    let disk = WatchedDisk::new(alloc, disk_of(rt, folder), progress);
    Ok(exit_status(
        threads,
        alloc,
        words,
        disk,
        over,
        links,
        doors,
        gids,
        &mut out,
        &mut watch,
        progress,
        &mut errors,
    ))
}

// All files, or those below a folder that is served.
fn disk_of<'a>(rt: &'a HostRuntime, folder: Option<Text>) -> EdgeDisk<'a, HostRuntime> {
    match folder {
        Some(dir) => EdgeDisk::Folder(FolderDisk::new(rt, dir.as_str())),
        None => EdgeDisk::All(FileDisk::new(rt)),
    }
}

// One listener for all doors, where there are some. Where it can't be had, nobody is let in.
fn listener(rt: &HostRuntime, needs: Needs) -> io::Result<Option<TcpListener>> {
    if needs.doors == 0 {
        return Ok(None);
    }
    let port = needs.port;
    match listen_on(
        rt,
        SocketAddr::V4(SocketAddrV4::new(Ipv4Addr::LOCALHOST, port)),
    ) {
        Ok(listener) => Ok(Some(listener)),
        Err(error) => {
            eprintln!(rt; "aria_cli: can't listen at port {port} of 127.0.0.1: {error}")?;
            Ok(None)
        }
    }
}

fn doors<'a>(
    rt: &'a HostRuntime,
    listener: Option<&'a TcpListener>,
    over: &'a AtomicBool,
    count: u16,
) -> io::Result<Vec<(Door<'a>, RealClock<'a>)>>
    requires { count ≤ CONSOLE_DOORS }
    ensures { IfOk result (λ doors. length doors.items ≡ count) }
{
    let mut doors = Vec::new(rt.alloc());
    for _ in 0..count {
        doors.push((TcpDoors::new(rt, listener, over), StdClock::new(rt)?))?;
    }
    Ok(doors)
}

fn random_number(rt: &HostRuntime) -> io::Result<u64> {
    let mut bytes = [0; 8];
    rt.fill_bytes(&mut bytes)?;
    Ok(u64::from_ne_bytes(bytes))
}

// A line of progress is drawn at each of them, where standard error is a terminal.
fn links<'a>(
    rt: &'a HostRuntime,
    shared: &'a Shared,
    count: u16,
) -> io::Result<Vec<(Link<'a>, RealClock<'a>)>>
    requires { (1 ≤ count) × (count ≤ MAX_LINKS) }
    ensures { IfOk result (λ links. length links.items ≡ count) }
{
    let alloc = rt.alloc();
    let mut links = Vec::new(alloc);
    for _ in 0..count {
        let link = TcpLinks::new(rt, &shared.over);
        let link = WatchedLinks::new(link, &shared.progress, terminal(rt)?);
        links.push((link, StdClock::new(rt)?))?;
    }
    Ok(links)
}

fn terminal(rt: &HostRuntime) -> io::Result<Option<Terminal<RealClock<'_>, Stderr>>> {
    let (alloc, out) = (rt.alloc(), rt.stderr());
    if !out.is_terminal() {
        return Ok(None);
    }
    let clock = StdClock::new(rt)?;
    Ok(Some(Terminal { alloc, clock, out }))
}

// The words of the command line after the program's name. A word that isn't UTF-8 makes the whole line faulty, as no
// words at all are.
fn words(rt: &(impl Env + AllocGlobal)) -> io::Result<Vec<String>> {
    let mut words = Vec::new(rt.alloc());
    match env::args(rt) {
        Ok(args) => {
            for word in args.skip(1) {
                words.push(word)?;
            }
        }
        Err(e) if e.kind() == ErrorKind::OutOfMemory => return Err(e),
        Err(_) => {}
    }
    Ok(words)
}
