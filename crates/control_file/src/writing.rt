// Control files as bytes.
ghost use Rattle.std.specs.Prelude.{◌≡◌, ◌<◌, ◌^◌, ◌++◌, Ok, length, OnOk, IfOk};
ghost use Rattle.std.specs.Int.{w32};
ghost use Rattle.std.specs.List.{flat_map};
ghost use Rattle.bit_rows.specs.Row.{row_bytes};
ghost use Rattle.control_file.specs.Reading.{control_in};
ghost use Rattle.control_file.specs.Spelling.{IsWritableControl, number_bytes, counted_bytes, in_flight_bytes, control_bytes};
ghost use Rattle.control_file.specs.declared.fields.ByteOrder.TheVariants.{Big};

use crate::laws::control_files_are_read;
use crate::{Control, InFlight};
use bit_rows::BitRow;
use std::alloc::{AllocError, Global};

const VERSION: u16 = 1;

fn put_counted(out: &mut Vec<u8>, bytes: &[u8]) -> Result<(), AllocError>
    requires { length bytes.now < 2 ^ 32 }
    ensures { OnOk result (out.new.items ≡ out.old.items ++ counted_bytes Big bytes.now) }
{
    out.extend_from_slice(&(bytes.len() as u32).to_be_bytes())?;
    out.extend_from_slice(bytes)
}

#[tactic(auto, using(crate::proofs::RowBytes::bytes_of_len))]
fn bytes_len(row: &BitRow) -> u32
    ensures { result ≡ length (row_bytes row.now) }
{
    row.len().div_ceil(8)
}

fn put_row(out: &mut Vec<u8>, row: &BitRow) -> Result<(), AllocError>
    ensures { OnOk result (out.new.items ≡ out.old.items ++ counted_bytes Big (row_bytes row.now)) }
{
    out.extend_from_slice(&bytes_len(row).to_be_bytes())?;
    out.extend_from_slice(row.bytes())
}

fn put_in_flight(out: &mut Vec<u8>, piece: &InFlight) -> Result<(), AllocError>
    ensures { OnOk result (out.new.items ≡ out.old.items ++ in_flight_bytes Big piece.now) }
{
    out.extend_from_slice(&piece.index.to_be_bytes())?;
    out.extend_from_slice(&piece.length.to_be_bytes())?;
    put_row(out, &piece.blocks)
}

fn put_flight(out: &mut Vec<u8>, pieces: &[InFlight]) -> Result<(), AllocError>
    ensures { OnOk result (out.new.items
        ≡ out.old.items ++ flat_map (in_flight_bytes Big) pieces.now) }
{
    for piece in pieces {
        put_in_flight(out, piece)?;
    }
    Ok(())
}

fn write_all(alloc: Global, control: &Control) -> Result<Vec<u8>, AllocError>
    requires { IsWritableControl control.now }
    ensures { IfOk result (λ bytes. bytes.items ≡ control_bytes Big control.now) }
{
    let mut out = Vec::new(alloc);
    out.extend_from_slice(&VERSION.to_be_bytes())?;
    out.extend_from_slice(&control.ext.to_be_bytes())?;
    put_counted(&mut out, control.info_hash.bytes())?;
    out.extend_from_slice(&control.piece_len.to_be_bytes())?;
    out.extend_from_slice(&control.total.to_be_bytes())?;
    out.extend_from_slice(&control.uploaded.to_be_bytes())?;
    put_row(&mut out, &control.pieces)?;
    out.extend_from_slice(&(control.flight.len() as u32).to_be_bytes())?;
    put_flight(&mut out, control.flight.items())?;
    Ok(out)
}

impl Control {
    /// Its control file, of version 1. The pieces in flight have to be in the order of their numbers, each with a block
    /// that has come.
    pub fn write(&self, alloc: Global) -> Result<Vec<u8>, AllocError>
        requires { IsWritableControl self.now }
        ensures spelled { IfOk result (λ bytes. bytes.items ≡ control_bytes Big self.now) }
        ensures read_back { IfOk result (λ bytes. control_in bytes.items ≡ Ok self.now) }
    {
        control_files_are_read();
        write_all(alloc, self)
    }
}
