// Bytes as control files.
ghost use Rattle.std.specs.Prelude.{◌≡◌, ◌+◌, ◌≤◌, ◌<◌, ◌^◌, Ok, length, IfOk};
ghost use Rattle.dl_kinds.specs.Answers.{Gives};
ghost use Rattle.dl_kinds.specs.Plan.{blocks_of_piece};
ghost use Rattle.control_file.specs.Unread.{unread};
ghost use Rattle.control_file.specs.Spelling.{IsControlFile, bytes_of_piece};
ghost use Rattle.control_file.specs.Reading as specs;
ghost use Rattle.control_file.specs.declared.control.Control.{Control};

use crate::fields::Fields;
use crate::laws::control_files_are_read;
use crate::{ByteOrder, Control, ControlErr, InFlight, InFlights};
use bit_rows::{BitErr, BitRow};
use dl_kinds::{Blob, Plan};
use std::alloc::Global;

/// Bytes of an info hash.
const HASH_LEN: u32 = 20;

#[tactic(auto, unfolding(crate::specs::Reading::order_at))]
fn read_order(fields: &mut Fields<'_>) -> Result<ByteOrder, ControlErr>
    ensures { Gives (λ order. (order, unread fields.new)) specs.control_fault result
        (specs.order_at (unread fields.old)) }
{
    match fields.u16()? {
        0 => Ok(ByteOrder::Little),
        1 => Ok(ByteOrder::Big),
        version => Err(ControlErr::Version(version)),
    }
}

#[tactic(auto, unfolding(crate::specs::Reading::hash_at))]
fn read_hash(
    alloc: Global,
    order: ByteOrder,
    fields: &mut Fields<'_>,
) -> Result<(u32, Blob), ControlErr>
    ensures { Gives (λ hash. (hash.0, hash.1, unread fields.new)) specs.control_fault result
        (specs.hash_at order (unread fields.old)) }
{
    let ext = fields.at_most(ByteOrder::Big, 1)?;
    let len = fields.exactly(order, HASH_LEN * ext)?;
    Ok((ext, Blob::of(alloc, fields.take(len as usize)?)?))
}

#[tactic(auto, unfolding(crate::specs::Reading::lengths_at, crate::specs::Reading::field_at))]
fn read_lengths(order: ByteOrder, fields: &mut Fields<'_>) -> Result<(Plan, u64), ControlErr>
    ensures { Gives (λ lengths. (specs.lengths_of lengths.0 lengths.1, unread fields.new))
        specs.control_fault result
        (specs.lengths_at order (unread fields.old)) }
{
    let at = fields.at;
    let piece_len = fields.u32(order)?;
    if Plan::new(0, piece_len).is_none() {
        return Err(ControlErr::Wrong { at: at as u64 });
    }
    let at = fields.at;
    let total = fields.u64(order)?;
    let Some(plan) = Plan::new(total, piece_len) else {
        return Err(ControlErr::Wrong { at: at as u64 });
    };
    let uploaded = fields.u64(order)?;
    Ok((plan, uploaded))
}

#[tactic(auto, using(crate::proofs::Spare::none_spare, crate::proofs::Spare::some_spare), unfolding(crate::specs::Reading::row_at))]
fn read_row(
    alloc: Global,
    order: ByteOrder,
    bits: u32,
    fields: &mut Fields<'_>,
) -> Result<BitRow, ControlErr>
    ensures exact { Gives (λ row. (row, unread fields.new)) specs.control_fault result
        (specs.row_at order bits (unread fields.old)) }
    ensures len { IfOk result (λ row. length row ≡ bits) }
{
    let len = fields.exactly(order, bits.div_ceil(8))?;
    let at = fields.at;
    let bytes = fields.take(len as usize)?;
    match BitRow::from_bytes(alloc, bytes, bits) {
        Ok(row) => Ok(row),
        Err(BitErr::Length) => Err(ControlErr::Wrong { at: at as u64 }),
        Err(BitErr::Spare) => Err(ControlErr::Wrong { at: at as u64 }),
        Err(BitErr::NoMemory) => Err(ControlErr::NoMemory),
    }
}

fn piece_bytes(plan: &Plan, piece: u32) -> u32
    requires { piece < plan.now.pieces }
    ensures { result ≡ bytes_of_piece plan.now.total plan.now.piece_len piece }
{
    plan.piece_span(piece).1
}

fn piece_blocks(plan: &Plan, piece: u32) -> u32
    requires { piece < plan.now.pieces }
    ensures { result ≡ blocks_of_piece plan.now.total plan.now.piece_len piece }
{
    plan.blocks_in(piece) as u32
}

#[tactic(auto, unfolding(crate::specs::Reading::in_flight_at))]
fn read_in_flight(
    alloc: Global,
    order: ByteOrder,
    plan: &Plan,
    taken: &BitRow,
    fields: &mut Fields<'_>,
) -> Result<InFlight, ControlErr>
    requires { length taken.now ≡ plan.now.pieces }
    ensures exact { Gives (λ piece. (piece, unread fields.new)) specs.control_fault result
        (specs.in_flight_at order plan.now.total plan.now.piece_len taken.now (unread fields.old)) }
    ensures within { IfOk result (λ piece. piece.index < length taken.now) }
{
    let index = fields.open_in(order, taken)?;
    let length = fields.exactly(order, piece_bytes(plan, index))?;
    let blocks = read_row(alloc, order, piece_blocks(plan, index), fields)?;
    Ok(InFlight {
        index,
        length,
        blocks,
    })
}

fn read_flight(
    alloc: Global,
    order: ByteOrder,
    plan: &Plan,
    count: u32,
    pieces: &BitRow,
    fields: &mut Fields<'_>,
) -> Result<InFlights, ControlErr>
    requires { length pieces.now ≡ plan.now.pieces }
    ensures { Gives (λ flight. (flight, unread fields.new)) specs.control_fault result
        (specs.flight_at order plan.now.total plan.now.piece_len count pieces.now
        (unread fields.old)) }
{
    let mut taken = pieces.copy(alloc)?;
    let mut flight = InFlights::new(alloc);
    for _ in 0..count {
        let piece = read_in_flight(alloc, order, plan, &taken, fields)?;
        taken.set(piece.index);
        flight.push(piece)?;
    }
    Ok(flight)
}

#[tactic(auto, unfolding(crate::specs::Reading::progress_at))]
fn read_progress(
    alloc: Global,
    order: ByteOrder,
    plan: &Plan,
    fields: &mut Fields<'_>,
) -> Result<(BitRow, InFlights), ControlErr>
    ensures { Gives (λ progress. (progress.0, progress.1, unread fields.new))
        specs.control_fault result
        (specs.progress_at order plan.now.total plan.now.piece_len (unread fields.old)) }
{
    let pieces = read_row(alloc, order, plan.pieces, fields)?;
    let count = fields.at_most(order, pieces.len())?;
    let flight = read_flight(alloc, order, plan, count, &pieces, fields)?;
    Ok((pieces, flight))
}

#[tactic(auto, unfolding(crate::specs::Reading::control_in))]
fn read_all(alloc: Global, bytes: &[u8]) -> Result<Control, ControlErr>
    ensures { Gives (λ control. control) specs.control_fault result (specs.control_in bytes.now) }
{
    let mut fields = Fields { bytes, at: 0 };
    let order = read_order(&mut fields)?;
    let (ext, info_hash) = read_hash(alloc, order, &mut fields)?;
    let (plan, uploaded) = read_lengths(order, &mut fields)?;
    let (pieces, flight) = read_progress(alloc, order, &plan, &mut fields)?;
    if fields.at < fields.bytes.len() {
        return Err(ControlErr::Wrong {
            at: fields.at as u64,
        });
    }
    Ok(Control {
        ext,
        info_hash,
        piece_len: plan.piece_len,
        total: plan.total,
        uploaded,
        pieces,
        flight,
    })
}

impl Control {
    /// What the bytes say, all of them. An error but want of memory is the first fault from left to right: Version where
    /// another version than 0 and 1 is told, otherwise Wrong at the first field that breaks its rule or is cut short, or at
    /// the first byte behind the last field. Time and memory are in proportion to the bytes.
    pub fn read(alloc: Global, bytes: &[u8]) -> Result<Control, ControlErr>
        // What is read is what the bytes say.
        ensures found { IfOk result (λ control. IsControlFile bytes.now control) }
        // What the bytes say is read, unless memory runs out.
        ensures only { (c : Control) → IsControlFile bytes.now c
            → Gives (λ c. c) specs.control_fault result (Ok c) }
        // Which value or fault it is.
        ensures exact { Gives (λ control. control) specs.control_fault result
            (specs.control_in bytes.now) }
    {
        control_files_are_read();
        read_all(alloc, bytes)
    }
}
