// A download, read to be told of.
ghost use Rattle.std.specs.Prelude.{◌≡◌, IfOk, IfNone, IfSome, None};
ghost use Rattle.hex.specs.Hex.{encode_lower};
ghost use Rattle.machine_core.specs.FileNames.{folder_in};
ghost use Rattle.machine_core.specs.RunLegal.{download_in};
ghost use Rattle.run_report.specs.Subjects as subjects;
ghost use Rattle.run_report.specs.Told.{IsReadOf};

use crate::uris::used_mirrors;
use dl_kinds::{Gid, Text, Texts};
use machine_core::{Call, Machine, payload_folder, payload_name};
use metainfo::Meta;
use option_set::{Num, Options};
use std::alloc::{AllocError, Global};
use std::marker::Model;

/// A download of a run, as it is read to be told of.
#[derive(Drop)]
pub(crate) struct Told<'a> {
    pub(crate) machine: &'a Machine,
    pub(crate) gid: Gid,
    pub(crate) meta: Option<&'a Meta>,
    pub(crate) uris: &'a Texts,
    // The options that it began with.
    pub(crate) begun: &'a Options,
    // The name of its payload.
    pub(crate) name: Text,
    // For each mirror whether a claim of it stands.
    pub(crate) used: Vec<bool>,
}

impl<'a> Model for Told<'a> {
    ghost use Rattle.std.specs.Prelude.{option_copied};
    ghost use Rattle.run_report.specs.Told.{KeepsTold, ToldView, subject_by};

    ghost Value = { ToldView };

    ghost view = { λ t. record {
      machine = t.machine.now;
      download = record {
        gid = t.gid;
        subject = subject_by (option_copied t.meta) t.uris.now;
        options = t.begun.now;
      };
      name = t.name;
    } };

    ghost invariant = { λ t. KeepsTold
        (record {
          machine = t.machine.now;
          download = record {
            gid = t.gid;
            subject = subject_by (option_copied t.meta) t.uris.now;
            options = t.begun.now;
          };
          name = t.name;
        })
        t.used.items };
}

/// A download of a run, if it was added.
pub(crate) fn read_download<'a>(
    machine: &'a Machine,
    alloc: Global,
    gid: Gid,
) -> Result<Option<Told<'a>>, AllocError>
    ensures found { IfOk result (λ told. IfSome told (IsReadOf machine.now gid)) }
    ensures none { IfOk result (λ told. IfNone told
        (download_in machine.now.start machine.now.past gid ≡ None)) }
{
    let Some(call) = machine.adding(gid) else {
        return Ok(None);
    };
    let begun = machine.begun(gid).unwrap();
    let name = payload_name(alloc, call, begun)?;
    match call {
        Call::AddTorrent { meta, uris, .. } => {
            let mirrors = meta.seeds.len() + uris.len();
            Ok(Some(Told {
                machine,
                gid,
                meta: Some(meta),
                uris,
                begun,
                name,
                used: used_mirrors(machine, alloc, gid, mirrors)?,
            }))
        }
        Call::AddUri { uris, .. } => Ok(Some(Told {
            machine,
            gid,
            meta: None,
            uris,
            begun,
            name,
            used: used_mirrors(machine, alloc, gid, uris.len())?,
        })),
        // No other call adds a download.
        _ => unreachable!(),
    }
}

/// Bytes as hexadecimal digits in lower case.
pub(crate) fn hex_text(alloc: Global, bytes: &[u8]) -> Result<Text, AllocError>
    ensures { IfOk result (λ text. text ≡ encode_lower bytes.now) }
{
    let digits = hex::encode(alloc, bytes)?;
    Text::of(alloc, digits.as_str())
}

impl<'a> Told<'a> {
    /// The info hash of its metainfo file.
    pub(crate) fn info_hash(&self, alloc: Global) -> Result<Option<Text>, AllocError>
        ensures { IfOk result (λ text.
            text ≡ subjects.info_hash_text self.now.download.subject) }
    {
        match self.meta {
            Some(meta) => Ok(Some(hex_text(alloc, meta.info_hash.as_slice())?)),
            None => Ok(None),
        }
    }

    /// The length of its pieces, in bytes.
    pub(crate) fn piece_length(&self) -> u64
        ensures { result
            ≡ subjects.piece_length_by self.now.download self.now.download.subject }
    {
        match self.meta {
            Some(meta) => meta.plan.piece_len as u64,
            None => self.begun.number(Num::PieceLength),
        }
    }

    /// The folder of its payload.
    pub(crate) fn folder(&self) -> &str
        ensures { result.now ≡ folder_in self.now.download }
    {
        payload_folder(self.begun)
    }
}
