// What is sent in answer to a request.
ghost use Rattle.std.specs.Prelude.{◌≡◌, ◌<◌, ◌≤◌, ◌+◌, ◌^◌, true, IfOk, IsTrue, Some, length};
ghost use Rattle.origin_replies.specs.Aims.{reply_by_length};
ghost use Rattle.dl_disk.specs.Files.{file_bytes};
ghost use Rattle.dl_kinds.specs.Lists.{part_at};
ghost use Rattle.origin_replies.specs.Replies.{IsWithinFile, first_sent, len_sent, head_of_reply};
ghost use Rattle.range_origin.specs.Answers.{AnswersFile, AnswersHead, HasLookedUp, HasReadPiece, piece_by, reply_and_content};
ghost use Rattle.range_origin.specs.Talking.{HasSent, SendsText, files_below, origin_at};

use crate::ends::{VisitEnd, visit_end_by};
use crate::shelf::{Ask, Shelf, Told};
use dl_disk::Disk;
use dl_kinds::{Blob, NoMemory, Text};
use door_source::{Doors, newest_connection_is_one};
use http_heads::AskHead;
use origin_replies::{
    Aim, Reply, aim_of, first_sent, is_get, len_sent, reply_by_length, reply_head,
};
use std::alloc::Global;
use turn_desk::{Desk, turns_add_up};

/// The most bytes of a file that are read in one turn.
pub const PIECE_BYTES: u64 = 65_536;

/// What a turn of reading gave.
#[derive(Debug, Drop)]
pub(crate) enum Piece {
    Read(Blob),
    /// Nothing, and the connection ends.
    Ended(VisitEnd),
}

// Sends all of the bytes, or tells how the connection ends.
fn send<A: Doors>(door: &mut A, bytes: &[u8]) -> Option<VisitEnd>
    requires opened { IsTrue A.tells → (A.state door.old).is_open ≡ true }
    ensures stays_open { IsTrue A.tells → (A.state door.new).is_open ≡ true }
    ensures sent { HasSent A.Doors bytes.now result door.old door.new }
{
    newest_connection_is_one();
    match door.send(bytes) {
        Ok(()) => None,
        Err(error) => Some(visit_end_by(error)),
    }
}

pub(crate) fn send_head<A: Doors>(alloc: Global, door: &mut A, reply: Reply) -> Option<VisitEnd>
    requires within { IsWithinFile reply }
    requires opened { IsTrue A.tells → (A.state door.old).is_open ≡ true }
    ensures stays_open { IsTrue A.tells → (A.state door.new).is_open ≡ true }
    ensures sent { HasSent A.Doors (head_of_reply reply) result door.old door.new }
{
    match reply_head(alloc, reply) {
        Ok(text) => send(door, text.as_bytes()),
        Err(_) => Some(VisitEnd::Starved),
    }
}

fn piece_by(told: Told) -> Piece
    ensures { result ≡ piece_by told }
{
    match told {
        Told::Bytes(bytes) => Piece::Read(bytes),
        Told::Length(_) => Piece::Ended(VisitEnd::Cut),
        Told::Fault { count: _ } => Piece::Ended(VisitEnd::DiskFailed),
        Told::NoMemory => Piece::Ended(VisitEnd::Starved),
    }
}

// Room for so many bytes: the one that is there, where it has them.
fn room_for(alloc: Global, room: Option<Blob>, len: u32) -> Result<Blob, NoMemory>
    ensures { IfOk result (λ room. length room ≡ len) }
{
    if let Some(room) = room {
        if room.bytes().len() == len as usize {
            return Ok(room);
        }
    }
    Ok(Blob::wrap(vec![in alloc; 0; len as usize]?))
}

// Reads some bytes of a file in a turn, into this room, if there is one that has so many.
fn read_piece<D: Disk, T: Desk<Shelf<D>>>(
    alloc: Global,
    desk: &mut T,
    name: &Text,
    at: u64,
    len: u32,
    room: Option<Blob>,
) -> Piece
    ensures desk_id { T.desk_id desk.new ≡ T.desk_id desk.old }
    ensures read { HasReadPiece D.Disk name.now at len (T.sight desk.old) (T.sight desk.new) result }
{
    turns_add_up::<Shelf<D>>();
    let Ok(room) = room_for(alloc, room, len) else {
        return Piece::Ended(VisitEnd::Starved);
    };
    match name.copy(alloc) {
        Ok(name) => piece_by(desk.turn(Ask::Read { name, at, room })),
        Err(_) => Piece::Ended(VisitEnd::Starved),
    }
}

// Looks the length of a file up in a turn.
fn look_up<D: Disk, T: Desk<Shelf<D>>>(alloc: Global, desk: &mut T, name: &Text) -> Told
    ensures desk_id { T.desk_id desk.new ≡ T.desk_id desk.old }
    ensures looked { HasLookedUp D.Disk name.now (T.sight desk.old) (T.sight desk.new) result }
{
    turns_add_up::<Shelf<D>>();
    match name.copy(alloc) {
        Ok(name) => desk.turn(Ask::Length { name }),
        Err(_) => Told::NoMemory,
    }
}

// Reads some bytes of a file, and sends them. The room that they took is left for the next ones.
fn send_piece<D: Disk, A: Doors, T: Desk<Shelf<D>>>(
    alloc: Global,
    desk: &mut T,
    door: &mut A,
    name: &Text,
    at: u64,
    len: u32,
    room: &mut Option<Blob>,
) -> Option<VisitEnd>
    requires some { 0 < len }
    requires held { IsTrue D.tells
        → at + len ≤ length (file_bytes (files_below D.Disk (T.sight desk.old).given name.now)) }
    requires opened { IsTrue A.tells → (A.state door.old).is_open ≡ true }
    ensures stays_open { IsTrue A.tells → (A.state door.new).is_open ≡ true }
    ensures desk_id { T.desk_id desk.new ≡ T.desk_id desk.old }
    ensures sent { SendsText T.sight D.Disk A.Doors
        (part_at (file_bytes (files_below D.Disk (T.sight desk.old).given name.now)) at len) 0
        result (origin_at desk.old door.old) (origin_at desk.new door.new) }
{
    match read_piece(alloc, desk, name, at, len, room.take()) {
        Piece::Read(bytes) => {
            let end = send(door, bytes.bytes());
            *room = Some(bytes);
            end
        }
        Piece::Ended(end) => Some(end),
    }
}

// Sends so many bytes of a file from a place on, piece by piece.
fn send_body<D: Disk, A: Doors, T: Desk<Shelf<D>>>(
    alloc: Global,
    desk: &mut T,
    door: &mut A,
    name: &Text,
    first: u64,
    len: u64,
) -> Option<VisitEnd>
    requires bounded { first + len < 2 ^ 64 }
    requires held { IsTrue D.tells
        → first + len ≤ length (file_bytes (files_below D.Disk (T.sight desk.old).given name.now)) }
    requires opened { IsTrue A.tells → (A.state door.old).is_open ≡ true }
    ensures stays_open { IsTrue A.tells → (A.state door.new).is_open ≡ true }
    ensures desk_id { T.desk_id desk.new ≡ T.desk_id desk.old }
    ensures sent { SendsText T.sight D.Disk A.Doors
        (part_at (file_bytes (files_below D.Disk (T.sight desk.old).given name.now)) first len) 0
        result (origin_at desk.old door.old) (origin_at desk.new door.new) }
{
    turns_add_up::<Shelf<D>>();
    let mut done = 0;
    let mut room = None;
    while done < len {
        let count = (len - done).min(PIECE_BYTES) as u32;
        if let Some(end) = send_piece(alloc, desk, door, name, first + done, count, &mut room) {
            return Some(end);
        }
        done += count as u64;
    }
    None
}

// Sends a reply: its head, and behind it the slice of the file, if the request is a GET.
fn send_reply<D: Disk, A: Doors, T: Desk<Shelf<D>>>(
    alloc: Global,
    desk: &mut T,
    door: &mut A,
    head: &AskHead,
    name: &Text,
    reply: Reply,
) -> Option<VisitEnd>
    requires within { IsWithinFile reply }
    requires bounded { first_sent reply + len_sent reply < 2 ^ 64 }
    requires held { IsTrue D.tells → first_sent reply + len_sent reply
        ≤ length (file_bytes (files_below D.Disk (T.sight desk.old).given name.now)) }
    requires opened { IsTrue A.tells → (A.state door.old).is_open ≡ true }
    ensures stays_open { IsTrue A.tells → (A.state door.new).is_open ≡ true }
    ensures desk_id { T.desk_id desk.new ≡ T.desk_id desk.old }
    ensures sent { SendsText T.sight D.Disk A.Doors
        (reply_and_content head.now reply (files_below D.Disk (T.sight desk.old).given name.now)) 0
        result (origin_at desk.old door.old) (origin_at desk.new door.new) }
{
    turns_add_up::<Shelf<D>>();
    if let Some(end) = send_head(alloc, door, reply) {
        return Some(end);
    }
    if is_get(head) {
        send_body(alloc, desk, door, name, first_sent(reply), len_sent(reply))
    } else {
        None
    }
}

// Answers a request for a file of this length.
fn answer_sized<D: Disk, A: Doors, T: Desk<Shelf<D>>>(
    alloc: Global,
    desk: &mut T,
    door: &mut A,
    head: &AskHead,
    name: &Text,
    total: u64,
) -> Option<VisitEnd>
    requires long { IsTrue D.tells
        → length (file_bytes (files_below D.Disk (T.sight desk.old).given name.now)) ≡ total }
    requires opened { IsTrue A.tells → (A.state door.old).is_open ≡ true }
    ensures stays_open { IsTrue A.tells → (A.state door.new).is_open ≡ true }
    ensures desk_id { T.desk_id desk.new ≡ T.desk_id desk.old }
    ensures sent { SendsText T.sight D.Disk A.Doors
        (reply_and_content head.now (reply_by_length head.now (Some total))
        (files_below D.Disk (T.sight desk.old).given name.now)) 0
        result (origin_at desk.old door.old) (origin_at desk.new door.new) }
{
    let reply = reply_by_length(head, Some(total));
    send_reply(alloc, desk, door, head, name, reply)
}

// Answers a request for the file of this name.
fn answer_file<D: Disk, A: Doors, T: Desk<Shelf<D>>>(
    alloc: Global,
    desk: &mut T,
    door: &mut A,
    head: &AskHead,
    name: &Text,
) -> Option<VisitEnd>
    requires opened { IsTrue A.tells → (A.state door.old).is_open ≡ true }
    ensures stays_open { IsTrue A.tells → (A.state door.new).is_open ≡ true }
    ensures desk_id { T.desk_id desk.new ≡ T.desk_id desk.old }
    ensures answers { AnswersFile T.sight D.Disk A.Doors head.now name.now
        result (origin_at desk.old door.old) (origin_at desk.new door.new) }
{
    turns_add_up::<Shelf<D>>();
    match look_up(alloc, desk, name) {
        Told::Length(Some(total)) => answer_sized(alloc, desk, door, head, name, total),
        Told::Length(None) => send_head(alloc, door, Reply::NotFound),
        Told::Fault { count: _ } => send_head(alloc, door, Reply::Failed),
        Told::NoMemory => Some(VisitEnd::Starved),
        Told::Bytes(_) => unreachable!(),
    }
}

/// Answers a request by its head, in the connection that is open. None is for a reply that was sent whole; else it is told
/// how the connection ends: a front of the reply was sent. The length of a file is looked up in one turn, and its bytes are
/// read in turns of 65,536, each sent before the next is read.
pub fn answer<D: Disk, A: Doors, T: Desk<Shelf<D>>>(
    alloc: Global,
    desk: &mut T,
    door: &mut A,
    head: &AskHead,
) -> Option<VisitEnd>
    requires opened { IsTrue A.tells → (A.state door.old).is_open ≡ true }
    ensures stays_open { IsTrue A.tells → (A.state door.new).is_open ≡ true }
    ensures desk_id { T.desk_id desk.new ≡ T.desk_id desk.old }
    ensures answers { AnswersHead T.sight D.Disk A.Doors head.now
        result (origin_at desk.old door.old) (origin_at desk.new door.new) }
{
    turns_add_up::<Shelf<D>>();
    match aim_of(alloc, head) {
        Ok(Aim::Refused(reply)) => send_head(alloc, door, reply),
        Ok(Aim::File(name)) => answer_file(alloc, desk, door, head, &name),
        Err(_) => Some(VisitEnd::Starved),
    }
}
