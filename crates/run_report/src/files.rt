// The files of a download, as they are told.
ghost use Rattle.std.specs.Prelude.{◌≡◌, ◌+◌, ◌<◌, ◌^◌, ◌∷◌, [], IfOk, Some, None};
ghost use Rattle.machine_core.specs.FileNames.{folder_in};
ghost use Rattle.machine_core.specs.Openings.{meta_of_subject};
ghost use Rattle.payload_files.specs.Names.{name_of};
ghost use Rattle.run_report.specs.Files as spec;
ghost use Rattle.run_report.specs.Told.{HasFile, facts_told, lengths_told, own_told};

use crate::pieces::verified_bytes_in;
use crate::told::Told;
use crate::{FileView, FileViews};
use dl_kinds::{Text, Texts};
use file_choice::selected;
use machine_core::accounts_match_runs;
use metainfo::Meta;
use option_set::Word;
use payload_files::file_name;
use std::alloc::{AllocError, Global};

impl<'a> Told<'a> {
    // The bytes of verified pieces in a part of the payload.
    fn verified_bytes(&self, first: u64, len: u64) -> u64
        requires { first + len < 2 ^ 64 }
        ensures { result ≡ spec.verified_bytes_in (lengths_told self.now)
            (spec.verified_row (lengths_told self.now) (own_told self.now)) first len }
    {
        accounts_match_runs();
        let _ = self.machine.journal();
        let Some(lengths) = self.machine.lengths(self.gid) else {
            return 0;
        };
        match self.machine.table(self.gid) {
            Some(table) => verified_bytes_in(table.verified(), lengths, first, len),
            None => 0,
        }
    }

    // The name of a file on the disk.
    fn file_path(&self, alloc: Global, path: &Texts) -> Result<Text, AllocError>
        ensures { IfOk result (λ text.
            text ≡ name_of (folder_in self.now.download) path.now) }
    {
        let name = file_name(alloc, self.folder(), path)?;
        Text::of(alloc, name.as_str())
    }

    // The file at a place, from 0, which begins at a byte of the payload.
    fn file_view(
        &self,
        alloc: Global,
        place: u32,
        first: u64,
        path: &Texts,
        len: u64,
        is_selected: bool,
    ) -> Result<FileView, AllocError>
        requires file { HasFile self.now place }
        requires fits { first + len < 2 ^ 64 }
        requires selected { is_selected ≡ spec.is_file_selected self.now.download
            self.now.download.subject (place + 1) }
        ensures { IfOk result (λ view. view ≡ spec.file_view (facts_told self.now) place first
            (record { path = path.now; len = len })) }
    {
        Ok(FileView {
            completed_length: self.verified_bytes(first, len),
            index: place as u64 + 1,
            length: len,
            path: self.file_path(alloc, path)?,
            selected: is_selected,
            uris: self.uri_views(alloc, place)?,
        })
    }

    // The files of a metainfo file.
    fn listed_views(&self, alloc: Global, meta: &Meta) -> Result<FileViews, AllocError>
        requires { meta_of_subject self.now.download.subject ≡ Some meta.now }
        ensures { IfOk result (λ views.
            views ≡ spec.file_views_from (facts_told self.now) 0 0 meta.now.layout) }
    {
        let files = meta.layout.files();
        let flags = selected(alloc, self.begun.text(Word::SelectFile), files.len())?;
        let mut views = FileViews::new(alloc);
        let mut first = 0;
        for (place, file) in files.iter().enumerate() {
            let view = self.file_view(
                alloc,
                place as u32,
                first,
                &file.path,
                file.len,
                flags[place],
            )?;
            views.push(view)?;
            first += file.len;
        }
        Ok(views)
    }

    /// The length of its payload, in bytes: 0 while it isn't known.
    pub(crate) fn total_length(&self) -> u64
        ensures { result ≡ (lengths_told self.now).total }
    {
        self.machine.total_len(self.gid)
    }

    // The one file of a payload without a metainfo file.
    fn one_view(&self, alloc: Global) -> Result<FileViews, AllocError>
        requires { meta_of_subject self.now.download.subject ≡ None }
        ensures { IfOk result (λ views. views ≡ spec.file_views_from (facts_told self.now) 0 0
            (record { path = self.now.name ∷ []; len = (lengths_told self.now).total } ∷ [])) }
    {
        let mut path = Texts::new(alloc);
        path.push(self.name.copy(alloc)?)?;
        let mut views = FileViews::new(alloc);
        views.push(self.file_view(alloc, 0, 0, &path, self.total_length(), true)?)?;
        Ok(views)
    }

    /// Its files, in their order.
    pub(crate) fn file_views(&self, alloc: Global) -> Result<FileViews, AllocError>
        ensures { IfOk result (λ views. views ≡ spec.file_views self.now.download self.now.name
            (lengths_told self.now) (own_told self.now)) }
    {
        match self.meta {
            Some(meta) => self.listed_views(alloc, meta),
            None => self.one_view(alloc),
        }
    }
}
